// Writes books with tables handed in as text, with what the call answers and how much of the lent slice it left alone. `stdout` was
// written from document 01.
#![tactic(auto)]

ghost use Rattle.std.specs.Prelude.{◌<◌, ◌≤◌, length};

use book::Book;
use command_lists::LEFT_OUT;
use names::{Filled, Names, Table};
use refusal::Refusal;
use std::io;
use std::io::Write;

// What stands in a slice before the call.
const BEFORE: u8 = b'.';

// ---- lines

// What stands at the start of the slice, and how many of the bytes behind it are as they were. The length is what the call answered: it may
// be too long for the slice.
fn show_slice(rt: &HostRuntime, out: &[u8], len: usize) -> io::Result<()> {
    let (Some(text), Some(behind)) = (out.get(..len), out.get(len..)) else {
        return println!(rt; "longer than the slice");
    };
    rt.stdout().write_all(text)?;
    let untouched = behind.iter().filter(|&&byte| byte == BEFORE).count();
    println!(rt; "untouched behind it: {untouched}")
}

fn show_in(rt: &HostRuntime, label: &str, b: Book, t: Names, out: &mut [u8]) -> io::Result<()> {
    match book_text::text_of(&b, &t, out) {
        Ok(len) => {
            println!(rt; "{label}: 0, bytes {len}")?;
            show_slice(rt, out, len)
        }
        Err(refusal) => {
            println!(rt; "{label}: {}, bytes 0", refusal.number())?;
            show_slice(rt, out, 0)
        }
    }
}

// In a slice of 1000 bytes.
fn show(rt: &HostRuntime, label: &str, b: Book, t: Names) -> io::Result<()> {
    show_in(rt, label, b, t, &mut [BEFORE; 1000])
}

// ---- tables, by names

// A table with these words, which spaces part.
fn table<const P: usize>(rt: &HostRuntime, words: &str) -> io::Result<Table<P>> {
    let mut names = Filled::empty();
    for word in words.split_whitespace() {
        let word = word.as_bytes();
        if words::is_valid_implementation(word) {
            names.enter(word);
        } else {
            println!(rt; "no word")?;
        }
    }
    Ok(names.table)
}

fn tables(
    rt: &HostRuntime,
    comp_words: &str,
    ver_words: &str,
    fac_words: &str,
    impl_words: &str,
) -> io::Result<Names> {
    Ok(Names {
        comps: table(rt, comp_words)?,
        vers: table(rt, ver_words)?,
        facs: table(rt, fac_words)?,
        impls: table(rt, impl_words)?,
    })
}

// A length and bytes written over those of a place, valid or not: the length need not be that of the bytes. No name is as long as 33.
fn overwrite<const P: usize>(table: &mut Table<P>, place: usize, len: u8, bytes: &[u8])
    requires { (place < P) × (length bytes.now ≤ 32) }
{
    let row = &mut table.rows[place];
    row[0] = len;
    row[1..1 + bytes.len()].copy_from_slice(bytes);
}

// ---- books, by calls

// A line where a call refuses. try_parts has such a function too: what a program prints stands in that program alone.
fn taken(rt: &HostRuntime, answer: Result<(), Refusal>) -> io::Result<()> {
    // The answer is one parameter, a Result.
    if let Err(refusal) = answer {
        println!(rt; "refused: {}", refusal.number())?;
    }
    Ok(())
}

// Component c specified with the one version v.
fn spec(
    rt: &HostRuntime,
    book: &mut Book,
    c: usize,
    provided: u64,
    v: usize,
    required: u64,
) -> io::Result<()> {
    taken(
        rt,
        commands::add_spec(book, c, provided, &[v], &[required], v),
    )
}

// Component c defined as a system of the one version 0, with the one member m, which alone is usable. The interface to C lends versions as
// numbers, so that LEFT_OUT is a number too.
fn system(rt: &HostRuntime, book: &mut Book, c: usize, m: usize) -> io::Result<()> {
    taken(
        rt,
        commands::add_sys(book, c, &[m], &[0], &[1], &[m], &[LEFT_OUT]),
    )
}

// ---- the teaching book

fn teaching(rt: &HostRuntime) -> io::Result<Book> {
    let mut b = Book::fresh();
    spec(rt, &mut b, 0, 1, 0, 0)?;
    spec(rt, &mut b, 1, 2, 1, 1)?;
    spec(rt, &mut b, 2, 4, 2, 3)?;
    spec(rt, &mut b, 3, 4, 3, 0)?;
    // LEFT_OUT is a number, as the interface to C lends versions.
    let used = [2, 0, 1];
    taken(
        rt,
        commands::add_sys(&mut b, 3, &used, &[3], &[3], &used, &[LEFT_OUT; 3]),
    )?;
    Ok(b)
}

// The names of the teaching book, with these for its components.
fn teaching_names_with(rt: &HostRuntime, comp_words: &str) -> io::Result<Names> {
    tables(rt, comp_words, "one v2 p a", "temp cool hold", "")
}

fn teaching_names(rt: &HostRuntime) -> io::Result<Names> {
    teaching_names_with(rt, "probe valve loop tank")
}

// The text of the teaching book has 248 bytes.
fn show_teaching(rt: &HostRuntime, k: Book, t: Names) -> io::Result<()> {
    show(rt, "teaching book", k, t)?;
    let mut enough = [BEFORE; 248];
    show_in(rt, "teaching book, exactly long enough", k, t, &mut enough)?;
    let mut short = [BEFORE; 247];
    show_in(rt, "teaching book, one byte too short", k, t, &mut short)?;
    show_in(rt, "teaching book, empty slice", k, t, &mut [])
}

// ---- Fig. 1 of the monograph

// The specifications; facilities are numbered in order of mention.
fn figure_specs(rt: &HostRuntime) -> io::Result<Book> {
    let mut b = Book::fresh();
    taken(rt, commands::add_spec(&mut b, 0, 3, &[0, 1], &[0, 0], 1))?;
    taken(rt, commands::add_spec(&mut b, 1, 3, &[0, 1], &[60, 964], 1))?;
    taken(rt, commands::add_spec(&mut b, 2, 56, &[2, 3], &[4, 4], 2))?;
    spec(rt, &mut b, 3, 1984, 4, 4)?;
    Ok(b)
}

fn figure_modules(rt: &HostRuntime) -> io::Result<Book> {
    let mut b = figure_specs(rt)?;
    taken(rt, commands::add_mod(&mut b, 1, &[0, 1], &[0, 1]))?;
    taken(rt, commands::add_mod(&mut b, 2, &[2, 3], &[2, 3]))?;
    taken(rt, commands::add_mod(&mut b, 3, &[4], &[4]))?;
    Ok(b)
}

// LEFT_OUT is a number, as the interface to C lends versions.
fn figure(rt: &HostRuntime) -> io::Result<Book> {
    let mut b = figure_modules(rt)?;
    taken(
        rt,
        commands::add_sys(
            &mut b,
            0,
            &[1, 2, 3],
            &[0, 1],
            &[2, 2],
            &[1, 2, 1, 3],
            &[0, LEFT_OUT, LEFT_OUT, LEFT_OUT],
        ),
    )?;
    Ok(b)
}

fn figure_names(rt: &HostRuntime) -> io::Result<Names> {
    tables(
        rt,
        "DiscScheduler ds rcbqueue rcblist",
        "FCFS SSTF staticq dynamicq slist",
        "schedule service rcb dequeue queue enqueue list remove inspect insert position",
        "/usr/ian/svcd/fcfs.ada.make /usr/ian/svcd/sstf.ada.make /usr/ian/svcd/sq.ada.make /usr/ian/svcd/dq.ada.make /usr/ian/svcd/sl.ada.make",
    )
}

// ---- systems that are held back

// Six components, each with version 0; all provide facility 0.
fn six_specs(rt: &HostRuntime) -> io::Result<Book> {
    let mut b = Book::fresh();
    for c in 0..6 {
        spec(rt, &mut b, c, 1, 0, 0)?;
    }
    Ok(b)
}

// a uses z, m uses a, b and z use base; c may use z too, but its composition does not hold it. LEFT_OUT is a number, as the interface to C
// lends versions.
fn held_back(rt: &HostRuntime) -> io::Result<Book> {
    let mut b = six_specs(rt)?;
    system(rt, &mut b, 0, 1)?;
    system(rt, &mut b, 1, 3)?;
    system(rt, &mut b, 2, 0)?;
    system(rt, &mut b, 4, 3)?;
    taken(
        rt,
        commands::add_sys(&mut b, 5, &[3, 1], &[0], &[1], &[3], &[LEFT_OUT]),
    )?;
    Ok(b)
}

fn held_back_names(rt: &HostRuntime) -> io::Result<Names> {
    tables(rt, "a z m base b c", "v", "f", "")
}

// ---- the order of bytes

// The components below 7 but for 2, specified with the version 1; component c provides facility c.
fn six_ordered(rt: &HostRuntime) -> io::Result<Book> {
    let mut b = Book::fresh();
    for c in 0..7 {
        if c != 2 {
            spec(rt, &mut b, c, sets::with(0, c), 1, 0)?;
        }
    }
    Ok(b)
}

// Component 2 has all seven versions, and 7 is a system of the others.
fn ordered(rt: &HostRuntime) -> io::Result<Book> {
    let versions = [0, 1, 2, 3, 4, 5, 6];
    let mut b = six_ordered(rt)?;
    taken(
        rt,
        commands::add_spec(&mut b, 2, 4, &versions, &[123, 0, 0, 0, 0, 0, 0], 1),
    )?;
    spec(rt, &mut b, 7, 127, 1, 0)?;
    let chosen = [1, 1, 0, 1, 1, 1, 1];
    taken(
        rt,
        commands::add_sys(&mut b, 7, &versions, &[1], &[7], &versions, &chosen),
    )?;
    Ok(b)
}

fn ordered_names(rt: &HostRuntime) -> io::Result<Names> {
    tables(
        rt,
        "ab a_ a A aB a0 a- 0a",
        "v_ v v- V v1 1 vV",
        "f_ f f- F f1 fF ff",
        "",
    )
}

// ---- a module that provides nothing

fn module(rt: &HostRuntime) -> io::Result<Book> {
    let mut b = Book::fresh();
    taken(rt, commands::add_spec(&mut b, 0, 0, &[0, 1], &[0, 0], 1))?;
    taken(rt, commands::add_mod(&mut b, 0, &[0, 1], &[0, 1]))?;
    Ok(b)
}

// ---- the question for 25

// The name of version 3 is made that of version 2; a place whose length is 33 is free.
fn show_twice(rt: &HostRuntime, k: Book, t: Names) -> io::Result<()> {
    let mut twice = t;
    overwrite(&mut twice.vers, 3, 1, b"p");
    show(rt, "a version's name twice", k, twice)?;
    let mut spare = t;
    overwrite(&mut spare.impls, 0, 1, b"x");
    overwrite(&mut spare.impls, 2, 1, b"x");
    show(rt, "a name twice that the book has not", k, spare)?;
    overwrite(&mut spare.impls, 0, 33, b"x");
    overwrite(&mut spare.impls, 2, 33, b"x");
    show(rt, "two free places with one byte", k, spare)
}

// A place whose length is 0 or 33 is free.
fn show_missing(rt: &HostRuntime, k: Book, t: Names) -> io::Result<()> {
    let mut free = t;
    overwrite(&mut free.facs, 0, 0, b"");
    show(rt, "no name for a facility", k, free)?;
    let mut long = t;
    overwrite(&mut long.comps, 0, 33, b"");
    show(rt, "a length above 32", k, long)
}

// The facility rcb of Fig. 1.
fn show_missing_required(rt: &HostRuntime) -> io::Result<()> {
    let mut t = figure_names(rt)?;
    overwrite(&mut t.facs, 2, 0, b"");
    show(
        rt,
        "no name for a facility that is only required",
        figure(rt)?,
        t,
    )
}

fn show_missing_implementation(rt: &HostRuntime) -> io::Result<()> {
    let one = tables(rt, "loop", "p q", "", "end")?;
    show(rt, "no name for an implementation", module(rt)?, one)
}

fn show_no_word(rt: &HostRuntime, k: Book) -> io::Result<()> {
    let keyword = teaching_names_with(rt, "probe valve end tank")?;
    show(rt, "a keyword as a name", k, keyword)?;
    let hyphen = teaching_names_with(rt, "probe valve -loop tank")?;
    show(rt, "a name that begins with a hyphen", k, hyphen)
}

fn show_invalid(rt: &HostRuntime, k: Book, t: Names) -> io::Result<()> {
    let mut blank = t;
    overwrite(&mut blank.comps, 0, 5, b"p obe");
    show(rt, "a name with a space", k, blank)?;
    let mut unused = t;
    overwrite(&mut unused.comps, 4, 1, b"-");
    show(
        rt,
        "no valid name for a number that the book has not",
        k,
        unused,
    )
}

fn show_no_book(rt: &HostRuntime, k: Book, t: Names) -> io::Result<()> {
    // In the layout that callers from C share, a component's kind stands at its number, and 0 says that it is not specified.
    let mut robbed = k;
    robbed.numbers[0] = 0;
    show(rt, "no book", robbed, t)?;
    show_in(rt, "no book, empty slice", robbed, t, &mut [])
}

// ---- all

fn show_empty(rt: &HostRuntime, t: Names) -> io::Result<()> {
    show(rt, "empty book", Book::fresh(), Names::empty())?;
    show_in(rt, "empty book, empty slice", Book::fresh(), t, &mut [])
}

fn show_module(rt: &HostRuntime) -> io::Result<()> {
    let t = tables(rt, "loop", "p q", "", "end a/b.c-d_e")?;
    show(rt, "module", module(rt)?, t)
}

fn show_books(rt: &HostRuntime, k: Book, t: Names) -> io::Result<()> {
    show_teaching(rt, k, t)?;
    show(rt, "Fig. 1", figure(rt)?, figure_names(rt)?)?;
    show_empty(rt, t)?;
    show(
        rt,
        "systems held back",
        held_back(rt)?,
        held_back_names(rt)?,
    )?;
    show(rt, "order of bytes", ordered(rt)?, ordered_names(rt)?)?;
    show_module(rt)
}

// The question for 25.
fn show_refused(rt: &HostRuntime, k: Book, t: Names) -> io::Result<()> {
    show_twice(rt, k, t)?;
    show_missing(rt, k, t)?;
    show_missing_required(rt)?;
    show_missing_implementation(rt)?;
    show_no_word(rt, k)?;
    show_invalid(rt, k, t)?;
    show_no_book(rt, k, t)
}

fn show_all(rt: &HostRuntime) -> io::Result<()> {
    let k = teaching(rt)?;
    let t = teaching_names(rt)?;
    show_books(rt, k, t)?;
    show_refused(rt, k, t)
}

fn main(rt: HostRuntime) {
    // A write that fails is passed over.
    let _ = show_all(&rt);
}
