// Reads texts from standard input, parted by form feeds, and prints a line for each command: the number of the text, the number of the
// command's keyword, the position behind the command, and what was read. The four tables are empty at the start of each text and keep
// their names from command to command. `stdout` was written from document 01.
#![tactic(auto)]

ghost use Rattle.std.specs.Prelude.{◌≡◌, IfOk};

use command_lists::{Composition, Gathered};
use names::Filled;
use read_command::{
    Command, Component, Form, Named, OfBook, OfComponent, OfVersion, Pair, Query, Version,
};
use read_tokens::{
    ModRequest, ModvarRequest, PairTables, Reader, SpecRequest, SysRequest, SysvarRequest,
};
use std::io;
use std::io::Write;

// What parts two texts: a form feed, which is no white space.
const PARTING: u8 = 12;

// The tables that the names of a text are entered into.
#[derive(Clone, Copy)]
struct Tables {
    pairs: PairTables,
    facs: Filled<64>,
    impls: Filled<256>,
}

impl Tables {
    fn empty() -> Tables {
        Tables {
            pairs: PairTables {
                comps: Filled::empty(),
                vers: Filled::empty(),
            },
            facs: Filled::empty(),
            impls: Filled::empty(),
        }
    }
}

// What the line of a command begins with: the number of the text, and that of the command's keyword.
#[derive(Clone, Copy)]
struct Head {
    number: usize,
    keyword: u8,
}

// ---- the keyword that begins a command, by its number in document 01's list: `stdout` was written with these

fn keyword_of(command: Command) -> u8 {
    match command {
        Command::AddSpec => 11,
        Command::AddMod => 16,
        Command::AddSys => 18,
        Command::Remove(Component::Spec) => 20,
        Command::Remove(Component::Module) => 21,
        Command::Remove(Component::System) => 22,
        Command::AddModvar => 23,
        Command::AddSysvar => 24,
        Command::RemoveVersion(Version::Module) => 25,
        Command::RemoveVersion(Version::System) => 26,
    }
}

// The keyword of a query by its number, as above: `stdout` was written with these.
fn query_keyword(query: Query) -> u8 {
    match query {
        Query::ByName(Named::One(OfComponent::Supplies)) => 0,
        Query::ByName(Named::Pair(OfVersion::Needs)) => 1,
        Query::Choice => 2,
        Query::ByName(Named::One(OfComponent::Standard)) => 4,
        Query::Whole(OfBook::Undefined) => 5,
        Query::Whole(OfBook::Unused) => 6,
        Query::ByName(Named::One(OfComponent::WhereUsed)) => 7,
        Query::Whole(OfBook::Text) => 9,
        Query::ByName(Named::Pair(OfVersion::Parts)) => 27,
    }
}

// ---- what was read, printed

// The line of a command that was read up to `end`; whether it is of the language.
fn print_read<R: Drop, F>(
    rt: &HostRuntime,
    head: Head,
    end: usize,
    read: Option<R>,
    print: F,
) -> io::Result<bool>
where
    F: Fn(&HostRuntime, R) -> io::Result<()>,
    requires { F.IsAlwaysCallable print }
{
    let Some(r) = read else {
        return Ok(false);
    };
    print!(rt; "{} command {} to {end}", head.number, head.keyword)?;
    print(rt, r)?;
    println!(rt)?;
    Ok(true)
}

// The line of an adding command. "Is there a place for each new name? no: 24": there is no request then.
fn print_adding<R: Drop, F>(
    rt: &HostRuntime,
    head: Head,
    end: usize,
    read: Option<Option<R>>,
    print: F,
) -> io::Result<bool>
where
    F: Fn(&HostRuntime, R) -> io::Result<()>,
    requires { F.IsAlwaysCallable print }
{
    print_read(rt, head, end, read, |rt, request| match request {
        Some(r) => print(rt, r),
        None => print!(rt; ": no place, 24"),
    })
}

fn print_set(rt: &HostRuntime, set: u64) -> io::Result<()> {
    for n in 0..64 {
        if sets::member(set, n) {
            print!(rt; " {n}")?;
        }
    }
    Ok(())
}

// A list that names something twice, for question 3.
fn print_twice(rt: &HostRuntime, twice: bool) -> io::Result<()> {
    if twice {
        print!(rt; ", twice")?;
    }
    Ok(())
}

// Each number that stands in a list, behind `before`, and what stands beside it.
fn print_list<T: Copy, const N: usize, F>(
    rt: &HostRuntime,
    before: &str,
    list: &Gathered<T, N>,
    print: F,
) -> io::Result<()>
where
    F: Fn(&HostRuntime, T) -> io::Result<()>,
    requires { F.IsAlwaysCallable print }
{
    for (k, &beside) in list.at.iter().enumerate() {
        if sets::member(list.listed, k) {
            print!(rt; "{before}{k}")?;
            print(rt, beside)?;
        }
    }
    Ok(())
}

fn print_spec(rt: &HostRuntime, r: SpecRequest) -> io::Result<()> {
    print!(rt; ": c{} provides", r.component)?;
    print_set(rt, r.provided)?;
    print_list(rt, "; v", &r.versions, |rt, required| {
        print!(rt; " requires")?;
        print_set(rt, required)
    })?;
    print_twice(rt, r.versions.twice)?;
    print!(rt; "; std v{}", r.standard)
}

fn print_mod(rt: &HostRuntime, r: ModRequest) -> io::Result<()> {
    print!(rt; ": c{}", r.component)?;
    print_list(rt, "; v", &r.versions, |rt, implementation| {
        print!(rt; " impl {implementation}")
    })?;
    print_twice(rt, r.versions.twice)
}

// Members, each with its version, or without where this is left out.
fn print_members(rt: &HostRuntime, members: &Composition) -> io::Result<()> {
    print_list(rt, " c", members, |rt, version| match version {
        Some(v) => print!(rt; ".v{v}"),
        None => Ok(()),
    })
}

fn print_sys(rt: &HostRuntime, r: SysRequest) -> io::Result<()> {
    print!(rt; ": c{} use", r.component)?;
    print_set(rt, r.usable.listed)?;
    print_twice(rt, r.usable.twice)?;
    print_list(rt, "; v", &r.versions, |rt, members| {
        print!(rt; " =")?;
        print_members(rt, &members)
    })?;
    print_twice(rt, r.versions.twice)
}

fn print_modvar(rt: &HostRuntime, r: ModvarRequest) -> io::Result<()> {
    print!(rt; ": c{}.v{} requires", r.component, r.version)?;
    print_set(rt, r.required)?;
    print!(rt; " impl {}", r.implementation)
}

fn print_sysvar(rt: &HostRuntime, r: SysvarRequest) -> io::Result<()> {
    print!(rt; ": c{}.v{} =", r.component, r.version)?;
    print_members(rt, &r.composition)?;
    print_twice(rt, r.composition.twice)
}

fn print_choice(rt: &HostRuntime, wanted: Option<u64>) -> io::Result<()> {
    match wanted {
        Some(set) => {
            print!(rt; ":")?;
            print_set(rt, set)
        }
        None => print!(rt; ": a name without a number"),
    }
}

// A name, as the part of the text.
fn print_name(rt: &HostRuntime, name: &[u8]) -> io::Result<()> {
    print!(rt; ": ")?;
    rt.stdout().write_all(name)
}

fn print_pair(rt: &HostRuntime, names: Pair<'_>) -> io::Result<()> {
    print_name(rt, names.component)?;
    print!(rt; ".")?;
    rt.stdout().write_all(names.version)
}

// ---- a command of each form, from behind its first word: whether it is of the language; it is read of the text that was handed in

// A command of one component.
#[tactic(auto, using(crate::specs::KeptLaws::kept))]
fn one(rt: &HostRuntime, head: Head, reader: &mut Reader<'_>) -> io::Result<bool>
    ensures { reader.new.text ≡ reader.old.text }
{
    let read = read_command::read_one(reader);
    print_read(rt, head, reader.at, read, |rt, name| print_name(rt, name))
}

// A command of a pair.
#[tactic(auto, using(crate::specs::KeptLaws::kept))]
fn pair(rt: &HostRuntime, head: Head, reader: &mut Reader<'_>) -> io::Result<bool>
    ensures { reader.new.text ≡ reader.old.text }
{
    let read = read_command::read_pair(reader);
    print_read(rt, head, reader.at, read, |rt, names| print_pair(rt, names))
}

// One of the ten commands. Each of the adding commands has tables and a request of its own, so the match names them.
#[tactic(auto, using(crate::specs::KeptLaws::kept))]
fn change(
    rt: &HostRuntime,
    head: Head,
    command: Command,
    tables: &mut Tables,
    reader: &mut Reader<'_>,
) -> io::Result<bool>
    ensures { reader.new.text ≡ reader.old.text }
{
    match command {
        Command::AddSpec => {
            let read = read_spec::read_spec(&mut tables.pairs, &mut tables.facs, reader);
            print_adding(rt, head, reader.at, read, print_spec)
        }
        Command::AddMod => {
            let read = read_mod::read_mod(&mut tables.pairs, &mut tables.impls, reader);
            print_adding(rt, head, reader.at, read, print_mod)
        }
        Command::AddSys => {
            let read = read_sys::read_sys(&mut tables.pairs, reader);
            print_adding(rt, head, reader.at, read, print_sys)
        }
        Command::AddModvar => {
            let Tables { pairs, facs, impls } = tables;
            let read = read_mod::read_modvar(pairs, facs, impls, reader);
            print_adding(rt, head, reader.at, read, print_modvar)
        }
        Command::AddSysvar => {
            let read = read_sys::read_sysvar(&mut tables.pairs, reader);
            print_adding(rt, head, reader.at, read, print_sysvar)
        }
        Command::Remove(_) => one(rt, head, reader),
        Command::RemoveVersion(_) => pair(rt, head, reader),
    }
}

// A query. A kind is read in a way of its own, so the match names them.
#[tactic(auto, using(crate::specs::KeptLaws::kept))]
fn ask(
    rt: &HostRuntime,
    head: Head,
    query: Query,
    tables: &Tables,
    reader: &mut Reader<'_>,
) -> io::Result<bool>
    ensures { reader.new.text ≡ reader.old.text }
{
    match query {
        Query::ByName(Named::One(_)) => one(rt, head, reader),
        Query::ByName(Named::Pair(_)) => pair(rt, head, reader),
        Query::Choice => {
            let read = read_command::read_choice(&tables.facs.table, reader);
            print_read(rt, head, reader.at, read, print_choice)
        }
        Query::Whole(_) => print_read(rt, head, reader.at, Some(()), |_, ()| Ok(())),
    }
}

// ---- texts

// "Is the command of the language? no: 23, and the session ends." The position is the one behind the command before it.
fn tell(rt: &HostRuntime, number: usize, at: usize, is_read: bool) -> io::Result<bool>
    ensures { IfOk result (λ told. told ≡ is_read) }
{
    if !is_read {
        println!(rt; "{number} not of the language, 23, from {at}")?;
    }
    Ok(is_read)
}

// The next command of a text: whether another can follow. After "quit", the end of the text, or what is not of the language none does.
#[tactic(auto, using(crate::specs::KeptLaws::kept))]
fn print_next(
    rt: &HostRuntime,
    number: usize,
    tables: &mut Tables,
    reader: &mut Reader<'_>,
) -> io::Result<bool>
    ensures { reader.new.text ≡ reader.old.text }
{
    let at = reader.at;
    let is_read = match read_command::read_command(reader) {
        Some(Form::Changes(command)) => {
            let keyword = keyword_of(command);
            change(rt, Head { number, keyword }, command, tables, reader)?
        }
        Some(Form::Asks(query)) => {
            let keyword = query_keyword(query);
            ask(rt, Head { number, keyword }, query, tables, reader)?
        }
        Some(Form::Over) => {
            println!(rt; "{number} over at {}", reader.at)?;
            return Ok(false);
        }
        None => false,
    };
    tell(rt, number, at, is_read)
}

// The commands of a text. Each takes a byte of it at least.
fn print_text(rt: &HostRuntime, number: usize, text: &[u8]) -> io::Result<()> {
    let mut tables = Tables::empty();
    let mut reader = Reader::new(text);
    for _ in 0..=text.len() {
        if !print_next(rt, number, &mut tables, &mut reader)? {
            break;
        }
    }
    Ok(())
}

fn print_texts(rt: &HostRuntime, input: &[u8]) -> io::Result<()> {
    for (before, text) in input.split(|&c| c == PARTING).enumerate() {
        print_text(rt, before + 1, text)?;
    }
    Ok(())
}

fn main(rt: HostRuntime) -> io::Result<()> {
    // Each program reads its input for itself. An array and no `Vec`, as the program needs no heap. What stands behind its 65536 bytes is not read.
    let mut input = [0u8; 65536];
    let n = input::fill(&mut rt.stdin(), &mut input)?;
    // A write that fails is passed over.
    let _ = print_texts(&rt, &input[..n]);
    Ok(())
}
