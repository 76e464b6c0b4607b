// Builds the teaching book and a deep book, and prints what the test for 25 and the queries say of them and of Books that are no books.
#![tactic(auto)]

use book::{Book, Kind};
use std::io;

// Components of the teaching book.
const PROBE: usize = 0;

const VALVE: usize = 1;

const LOOP: usize = 2;

const TANK: usize = 3;

// Sets of facilities.
const TEMP: u64 = 1;

const COOL: u64 = 2;

const HOLD: u64 = 4;

// Component c specified with the one version v, where it can be.
fn spec(book: &mut Book, c: usize, provides: u64, v: u8, required: u64) {
    if 32 <= c || 64 <= v || !book.is_proper() || book.is_specified(c) {
        return;
    }
    let versions = sets::with(0, usize::from(v));
    if 8 < sets::count(versions) {
        return;
    }
    book_put::put_spec(book, c, provides, versions, &[required; 64], v);
}

// Component c defined as a system whose versions all have the same members, where it can be.
fn system(book: &mut Book, c: usize, members: u64, rows: &[u8; 2048]) {
    if 32 <= c || 4294967296 <= members || !book.is_proper() {
        return;
    }
    if !book.is_specified(c) || book.is_module(c) || book.is_system(c) {
        return;
    }
    book_put::put_sys(book, c, members, &[members; 64], rows);
}

// probe, valve, loop and tank, as in document 01. The one version of tank is 3: row 3 has the versions of its members.
fn teaching() -> Book {
    let mut book = Book::fresh();
    spec(&mut book, PROBE, TEMP, 0, 0);
    spec(&mut book, VALVE, COOL, 1, TEMP);
    spec(&mut book, LOOP, HOLD, 2, TEMP | COOL);
    spec(&mut book, TANK, HOLD, 3, 0);
    // Flat, as the writer of a system asks the rows.
    let mut rows = [0; 2048];
    rows[3 * 32 + VALVE] = 1;
    rows[3 * 32 + LOOP] = 2;
    let members = 1 << PROBE | 1 << VALVE | 1 << LOOP;
    system(&mut book, TANK, members, &rows);
    book
}

// Four components provide a facility each and require the other three. Over them, 28 systems, each made from the latest providers of
// the four facilities.
fn deep() -> Book {
    let mut book = Book::fresh();
    spec(&mut book, 0, 1, 0, 14);
    spec(&mut book, 1, 2, 0, 13);
    spec(&mut book, 2, 4, 0, 11);
    spec(&mut book, 3, 8, 0, 7);
    let mut latest = 15;
    for i in 0..28 {
        let c = i + 4;
        spec(&mut book, c, sets::with(0, i % 4), 0, 0);
        system(&mut book, c, latest, &[0; 2048]);
        latest = sets::without(sets::with(latest, c), i);
    }
    book
}

// A line with 1 where the Book is one, and else with 0.
fn judged(rt: &HostRuntime, text: &str, b: Book) -> io::Result<()> {
    println!(rt; "{text}, test {}", u8::from(book_test::is_book(b)))
}

// Books that are no books: tank's member probe is not there; a kind that no component has; an unspecified component made a system.
fn damaged(rt: &HostRuntime) -> io::Result<()> {
    let mut robbed = teaching();
    robbed.set_kind(PROBE, None);
    judged(rt, "robbed of probe", robbed)?;
    let mut strange = teaching();
    // No method of the Book writes a number that is no kind's.
    strange.numbers[4] = 200;
    judged(rt, "a kind that is none", strange)?;
    let mut made = teaching();
    made.set_kind(5, Some(Kind::System));
    judged(rt, "a system with no version", made)
}

// The rows that CHOICE of hold finds.
fn choice(rt: &HostRuntime, b: Book) -> io::Result<()> {
    let mut rows = [0; 3];
    let found = queries::choice(&b, HOLD, &mut rows);
    println!(rt; "choice of hold, rows {}", found.unwrap_or(0))?;
    let [first, second, past] = rows;
    println!(rt; "the first {first}")?;
    println!(rt; "the second {second}")?;
    println!(rt; "past them {past}")
}

// The queries, of a component and of the whole book; sets as numbers.
fn queries_of(rt: &HostRuntime, b: Book) -> io::Result<()> {
    println!(rt;
        "supplies of tank {}",
        queries::supplies(&b, TANK).unwrap_or(0)
    )?;
    println!(rt;
        "needs of tank.a {}",
        queries::needs(&b, TANK, 3).unwrap_or(0)
    )?;
    println!(rt;
        "standard of loop {}",
        queries::standard(&b, LOOP).unwrap_or(0)
    )?;
    println!(rt; "undefined {}", queries::undefined(&b).unwrap_or(0))?;
    println!(rt; "unused {}", queries::unused(&b).unwrap_or(0))?;
    println!(rt;
        "whereused of probe {}",
        queries::whereused(&b, PROBE).unwrap_or(0)
    )?;
    choice(rt, b)
}

fn print_all(rt: &HostRuntime) -> io::Result<()> {
    judged(rt, "empty book", Book::fresh())?;
    judged(rt, "teaching book", teaching())?;
    queries_of(rt, teaching())?;
    let b = deep();
    judged(rt, "deep book", b)?;
    println!(rt;
        "deep book, needs of the last system {}",
        queries::needs(&b, 31, 0).unwrap_or(0)
    )?;
    damaged(rt)
}

fn main(rt: HostRuntime) {
    // A write that fails is passed over.
    let _ = print_all(&rt);
}
