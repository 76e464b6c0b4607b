// Puts every question to the ten calls, with its yes and its no, and prints a line for each call. The calls are read from standard input;
// `stdout` was written from document 01. A call on the Book is a line of one of these forms:
//
//     add-spec, WORDS: component; provided; versions; required; standard
//     add-mod, WORDS: component; versions; implementations
//     add-sys, WORDS: component; usable; versions; lengths; members; chosen
//     add-modvar, WORDS: component; version; required; implementation
//     add-sysvar, WORDS: component; version; members; chosen
//     del-spec, WORDS: component            del-mod and del-sys in the same way
//     del-modvar, WORDS: component; version            del-sysvar in the same way
//
// What stands before the colon is printed, then the answer, and the next call is on the Book that this one leaves. The arguments are those
// of crate commands: numbers in base ten, parted by spaces in a list, which has at most 16. Other lines:
//
//     keep: PLACE               keeps the Book, at place 0 or 1
//     back: PLACE               goes back to the Book that is kept there
//     set: PLACE; VALUE         writes the value into the Book's `sets`
//     number: PLACE; VALUE      writes the value into the Book's `numbers`
//     # REMARK                  is passed over, as an empty line is
//     HEADING                   is printed, having no colon
//
// What is not of these forms is reported by a line.
#![tactic(auto)]

use book::Book;
use refusal::Refusal;
use std::io;
use std::io::Write;

// ---- commands

// What a line with a colon asks for.
#[derive(Clone, Copy)]
enum Command {
    Call(Call),
    Keep,
    Back,
    Set,
    Number,
}

#[derive(Clone, Copy)]
enum Call {
    AddSpec,
    AddMod,
    AddSys,
    AddModvar,
    AddSysvar,
    DelSpec,
    DelMod,
    DelSys,
    DelModvar,
    DelSysvar,
}

impl Command {
    // The command of a name, behind which blanks may stand, up to ten bytes in all.
    fn named(word: &[u8]) -> Option<Command> {
        if word.len() > 10 {
            return None;
        }
        let last = word.iter().rposition(|&c| c != b' ')?;
        let command = match &word[..=last] {
            b"keep" => Command::Keep,
            b"back" => Command::Back,
            b"set" => Command::Set,
            b"number" => Command::Number,
            name => Command::Call(Call::named(name)?),
        };
        Some(command)
    }

    // How many semicolons a line of the command has.
    fn semicolons(self) -> usize {
        match self {
            Command::Call(call) => call.semicolons(),
            Command::Keep | Command::Back => 0,
            Command::Set | Command::Number => 1,
        }
    }
}

impl Call {
    fn named(name: &[u8]) -> Option<Call> {
        let call = match name {
            b"add-spec" => Call::AddSpec,
            b"add-mod" => Call::AddMod,
            b"add-sys" => Call::AddSys,
            b"add-modvar" => Call::AddModvar,
            b"add-sysvar" => Call::AddSysvar,
            b"del-spec" => Call::DelSpec,
            b"del-mod" => Call::DelMod,
            b"del-sys" => Call::DelSys,
            b"del-modvar" => Call::DelModvar,
            b"del-sysvar" => Call::DelSysvar,
            _ => return None,
        };
        Some(call)
    }

    // How many semicolons stand in a line: a count, and no answer.
    fn semicolons(self) -> usize {
        match self {
            Call::AddSpec => 4,
            Call::AddMod => 2,
            Call::AddSys => 5,
            Call::AddModvar | Call::AddSysvar => 3,
            Call::DelSpec | Call::DelMod | Call::DelSys => 0,
            Call::DelModvar | Call::DelSysvar => 1,
        }
    }
}

// ---- lists of numbers

// How many numbers a list has at most.
const MOST: usize = 16;

// A write that fails is passed over, here and below. Memory that is lacking ends the program.
fn report(rt: &HostRuntime) {
    let _ = println!(rt; "a line that is not of the form");
}

// A number with one more digit: none if the byte is no digit, or the number is too large.
fn with_digit(number: usize, byte: u8) -> Option<usize> {
    if !byte.is_ascii_digit() {
        return None;
    }
    number
        .checked_mul(10)?
        .checked_add(usize::from(byte - b'0'))
}

// The number that the digits of a word make behind those of `before`: none if it has no digit. A byte that is no digit is reported and left
// out, and so is a digit that makes the number too large.
fn number_of(rt: &HostRuntime, before: usize, word: &[u8]) -> Option<usize> {
    let mut number = None;
    for &byte in word {
        match with_digit(number.unwrap_or(before), byte) {
            Some(longer) => number = Some(longer),
            None => report(rt),
        }
    }
    number
}

// List k of the arguments, from 0. A number that a full list has no room for is reported, and the digits of the next number follow its digits.
fn list(rt: &HostRuntime, args: &[u8], k: usize) -> io::Result<Vec<usize>> {
    let mut items = Vec::new(rt.alloc());
    let Some(text) = args.split(|&c| c == b';').nth(k) else {
        return Ok(items);
    };
    let mut left = 0;
    for word in text.split(|&c| c == b' ') {
        let Some(number) = number_of(rt, left, word) else {
            continue;
        };
        if items.len() < MOST {
            items.push(number)?;
        } else {
            report(rt);
            left = number;
        }
    }
    Ok(items)
}

// List k as sets. `as`: `u64` has no `From` of a `usize`.
fn sets(rt: &HostRuntime, args: &[u8], k: usize) -> io::Result<Vec<u64>> {
    let numbers = list(rt, args, k)?;
    let sets = numbers.iter().map(|&n| n as u64).collect(rt.alloc())?;
    Ok(sets)
}

// The number that list k consists of.
fn number(rt: &HostRuntime, args: &[u8], k: usize) -> io::Result<usize> {
    let items = list(rt, args, k)?;
    if items.len() != 1 {
        report(rt);
    }
    Ok(items.first().copied().unwrap_or(0))
}

// The same as a set.
fn set(rt: &HostRuntime, args: &[u8], k: usize) -> io::Result<u64> {
    Ok(number(rt, args, k)? as u64)
}

// ---- the calls

type Answer = Result<(), Refusal>;

fn add_spec(rt: &HostRuntime, book: &mut Book, args: &[u8]) -> io::Result<Answer> {
    let c = number(rt, args, 0)?;
    let provided = set(rt, args, 1)?;
    let versions = list(rt, args, 2)?;
    let required = sets(rt, args, 3)?;
    let standard = number(rt, args, 4)?;
    Ok(commands::add_spec(book, c, provided, &versions, &required, standard))
}

fn add_mod(rt: &HostRuntime, book: &mut Book, args: &[u8]) -> io::Result<Answer> {
    let c = number(rt, args, 0)?;
    let versions = list(rt, args, 1)?;
    let implementations = list(rt, args, 2)?;
    Ok(commands::add_mod(book, c, &versions, &implementations))
}

fn add_sys(rt: &HostRuntime, book: &mut Book, args: &[u8]) -> io::Result<Answer> {
    let c = number(rt, args, 0)?;
    let usable = list(rt, args, 1)?;
    let versions = list(rt, args, 2)?;
    let lengths = list(rt, args, 3)?;
    let members = list(rt, args, 4)?;
    let chosen = list(rt, args, 5)?;
    Ok(commands::add_sys(book, c, &usable, &versions, &lengths, &members, &chosen))
}

fn add_modvar(rt: &HostRuntime, book: &mut Book, args: &[u8]) -> io::Result<Answer> {
    let c = number(rt, args, 0)?;
    let v = number(rt, args, 1)?;
    let required = set(rt, args, 2)?;
    let implementation = number(rt, args, 3)?;
    Ok(commands::add_modvar(book, c, v, required, implementation))
}

fn add_sysvar(rt: &HostRuntime, book: &mut Book, args: &[u8]) -> io::Result<Answer> {
    let c = number(rt, args, 0)?;
    let v = number(rt, args, 1)?;
    let members = list(rt, args, 2)?;
    let chosen = list(rt, args, 3)?;
    Ok(commands::add_sysvar(book, c, v, &members, &chosen))
}

fn make(rt: &HostRuntime, call: Call, book: &mut Book, args: &[u8]) -> io::Result<Answer> {
    match call {
        Call::AddSpec => add_spec(rt, book, args),
        Call::AddMod => add_mod(rt, book, args),
        Call::AddSys => add_sys(rt, book, args),
        Call::AddModvar => add_modvar(rt, book, args),
        Call::AddSysvar => add_sysvar(rt, book, args),
        Call::DelSpec => Ok(commands::del_spec(book, number(rt, args, 0)?)),
        Call::DelMod => Ok(commands::del_mod(book, number(rt, args, 0)?)),
        Call::DelSys => Ok(commands::del_sys(book, number(rt, args, 0)?)),
        Call::DelModvar => {
            let c = number(rt, args, 0)?;
            Ok(commands::del_modvar(book, c, number(rt, args, 1)?))
        }
        Call::DelSysvar => {
            let c = number(rt, args, 0)?;
            Ok(commands::del_sysvar(book, c, number(rt, args, 1)?))
        }
    }
}

fn tell(rt: &HostRuntime, words: &[u8], answer: Answer) {
    let _ = rt.stdout().write_all(words);
    let _ = println!(rt; ": {}", refusal::code(answer));
}

// ---- the Book, and what else is done with it

// The Book, and the two that are kept.
#[derive(Clone, Copy)]
struct Books {
    book: Book,
    kept: [Book; 2],
}

// Each does nothing, and gives None, where there is no such place or the value is too large for it.
impl Books {
    fn keep(&mut self, place: usize) -> Option<()> {
        *self.kept.get_mut(place)? = self.book;
        Some(())
    }

    fn go_back(&mut self, place: usize) -> Option<()> {
        self.book = *self.kept.get(place)?;
        Some(())
    }

    fn write_set(&mut self, place: usize, value: u64) -> Option<()> {
        *self.book.sets.get_mut(place)? = value;
        Some(())
    }

    fn write_number(&mut self, place: usize, value: usize) -> Option<()> {
        let byte = u8::try_from(value).ok()?;
        *self.book.numbers.get_mut(place)? = byte;
        Some(())
    }
}

// ---- lines

// A line with a colon. Each command has arguments of its own, so that a match calls the function of each.
fn carry_out(rt: &HostRuntime, books: &mut Books, words: &[u8], args: &[u8]) -> io::Result<()> {
    let end = words.iter().position(|&c| c == b',').unwrap_or(words.len());
    let Some(command) = Command::named(&words[..end]) else {
        report(rt);
        return Ok(());
    };
    if args.iter().filter(|&&c| c == b';').count() != command.semicolons() {
        report(rt);
        return Ok(());
    }
    let done = match command {
        Command::Call(call) => {
            let answer = make(rt, call, &mut books.book, args)?;
            tell(rt, words, answer);
            return Ok(());
        }
        Command::Keep => books.keep(number(rt, args, 0)?),
        Command::Back => books.go_back(number(rt, args, 0)?),
        Command::Set => books.write_set(number(rt, args, 0)?, set(rt, args, 1)?),
        Command::Number => books.write_number(number(rt, args, 0)?, number(rt, args, 1)?),
    };
    if done.is_none() {
        report(rt);
    }
    Ok(())
}

fn print_heading(rt: &HostRuntime, line: &[u8]) {
    let _ = rt.stdout().write_all(line);
    let _ = println!(rt);
}

fn do_line(rt: &HostRuntime, books: &mut Books, line: &[u8]) -> io::Result<()> {
    if line.is_empty() || line.starts_with(b"#") {
        return Ok(());
    }
    let Some(colon) = line.iter().position(|&c| c == b':') else {
        print_heading(rt, line);
        return Ok(());
    };
    carry_out(rt, books, &line[..colon], &line[colon + 1..])
}

fn do_lines(rt: &HostRuntime, input: &[u8]) -> io::Result<()> {
    let fresh = Book::fresh();
    let mut books = Books {
        book: fresh,
        kept: [fresh; 2],
    };
    for line in input.split(|&c| c == b'\n') {
        do_line(rt, &mut books, line)?;
    }
    Ok(())
}

// The input is read as a whole into an array of a fixed length. Each program that does so reads for itself: what it does with it is its own.
fn main(rt: HostRuntime) -> io::Result<()> {
    let mut input = [0u8; 65536];
    let n = input::fill(&mut rt.stdin(), &mut input)?;
    do_lines(&rt, &input[..n])
}
