// Asks for parts lists and prints their rows as component.version, with the whole of the lent slice. `stdout` was written from document 01.
#![tactic(auto)]

use book::Book;
use command_lists::LEFT_OUT;
use refusal::Refusal;
use std::io;

// Components of the teaching book.
const PROBE: usize = 0;

const VALVE: usize = 1;

const LOOP: usize = 2;

const TANK: usize = 3;

const SHELL: usize = 4;

const ROOM: usize = 5;

// Sets of facilities.
const TEMP: u64 = 1;

const COOL: u64 = 2;

const HOLD: u64 = 4;

// What stands in a slice before the call: 31.63.
const BEFORE: u16 = 2047;

// ---- lines

// A line with a query's answer, 0 where it is accepted, and the numbers in its set.
fn show_set(rt: &HostRuntime, text: &str, found: Result<u64, Refusal>) -> io::Result<()> {
    let (answer, set) = match found {
        Ok(set) => (0, set),
        Err(refusal) => (refusal.number(), 0),
    };
    print!(rt; "{text}: {answer};")?;
    for n in 0..64 {
        if sets::member(set, n) {
            print!(rt; " {n}")?;
        }
    }
    println!(rt;)
}

// A line with the answer for the parts of c, v, the number of rows and the slice. Gives the depth back.
fn show_parts(
    rt: &HostRuntime,
    text: &str,
    b: Book,
    c: usize,
    v: usize,
    out: &mut [u16],
) -> io::Result<usize> {
    let (answer, rows, depth) = match parts::parts(&b, c, v, out) {
        Ok(list) => (0, list.rows, list.depth),
        Err(refusal) => (refusal.number(), 0, 0),
    };
    print!(rt; "{text}: {answer}, rows {rows};")?;
    // A row of the call is one number, component × 64 + version.
    for row in out.iter() {
        print!(rt; " {}.{}", row / 64, row % 64)?;
    }
    println!(rt;)?;
    Ok(depth)
}

// The same, with a slice of six.
fn parts_of(rt: &HostRuntime, text: &str, b: Book, c: usize, v: usize) -> io::Result<usize> {
    show_parts(rt, text, b, c, v, &mut [BEFORE; 6])
}

// A depth stands in the listing where the longest chain is the number of systems plus one, so that the two bounds are one.
fn show_depth(rt: &HostRuntime, depth: usize) -> io::Result<()> {
    println!(rt; "depth: {depth}")
}

// ---- books, by calls

// A line where a call refuses. Each program stands by itself, so that what is printed is seen in it.
// The answer is one parameter, a Result, here and below.
fn taken(rt: &HostRuntime, answer: Result<(), Refusal>) -> io::Result<()> {
    if let Err(refusal) = answer {
        println!(rt; "refused: {}", refusal.number())?;
    }
    Ok(())
}

fn told(rt: &HostRuntime, text: &str, answer: Result<(), Refusal>) -> io::Result<()> {
    println!(rt; "{text}: {}", refusal::code(answer))
}

// Component c specified with the one version v.
fn spec(book: &mut Book, c: usize, provided: u64, v: usize, required: u64) -> Result<(), Refusal> {
    commands::add_spec(book, c, provided, &[v], &[required], v)
}

// Component c defined as a system of one version, with the one member m in version x.
fn system(book: &mut Book, c: usize, v: usize, m: usize, x: usize) -> Result<(), Refusal> {
    commands::add_sys(book, c, &[m], &[v], &[1], &[m], &[x])
}

// Component c defined as a system of one version, with all that is usable in its standard version: the slices of the call mark it by LEFT_OUT.
fn system_of<const N: usize>(
    book: &mut Book,
    c: usize,
    v: usize,
    used: &[usize; N],
) -> Result<(), Refusal> {
    commands::add_sys(book, c, used, &[v], &[N], used, &[LEFT_OUT; N])
}

fn teaching(rt: &HostRuntime) -> io::Result<Book> {
    let mut b = Book::fresh();
    taken(rt, spec(&mut b, PROBE, TEMP, 0, 0))?;
    taken(rt, spec(&mut b, VALVE, COOL, 1, TEMP))?;
    taken(rt, spec(&mut b, LOOP, HOLD, 2, TEMP | COOL))?;
    taken(rt, spec(&mut b, TANK, HOLD, 3, 0))?;
    taken(rt, system_of(&mut b, TANK, 3, &[LOOP, PROBE, VALVE]))?;
    Ok(b)
}

// Components 3, 7 and 9 have no members; 1 is made of 7, and 0 of 1, 3 and 9.
fn due(rt: &HostRuntime) -> io::Result<Book> {
    let mut b = Book::fresh();
    taken(rt, spec(&mut b, 3, 1, 5, 0))?;
    taken(rt, spec(&mut b, 7, 2, 5, 0))?;
    taken(rt, spec(&mut b, 9, 4, 5, 0))?;
    taken(rt, spec(&mut b, 1, 2, 5, 0))?;
    taken(rt, system_of(&mut b, 1, 5, &[7]))?;
    taken(rt, spec(&mut b, 0, 7, 5, 0))?;
    taken(rt, system_of(&mut b, 0, 5, &[9, 1, 3]))?;
    Ok(b)
}

// Component 2 has the versions 9, its standard one, and 4. 5 is made of 2.9, 6 and 7 of 2.4, and 0 of the three.
fn shared(rt: &HostRuntime) -> io::Result<Book> {
    let mut b = Book::fresh();
    taken(rt, commands::add_spec(&mut b, 2, 7, &[9, 4], &[0, 0], 9))?;
    taken(rt, spec(&mut b, 5, 1, 1, 0))?;
    taken(rt, system_of(&mut b, 5, 1, &[2]))?;
    taken(rt, spec(&mut b, 6, 2, 1, 0))?;
    taken(rt, system(&mut b, 6, 1, 2, 4))?;
    taken(rt, spec(&mut b, 7, 4, 1, 0))?;
    taken(rt, system(&mut b, 7, 1, 2, 4))?;
    taken(rt, spec(&mut b, 0, 7, 1, 0))?;
    taken(rt, system_of(&mut b, 0, 1, &[5, 6, 7]))?;
    Ok(b)
}

// Four components provide a facility each and require the other three.
fn four(rt: &HostRuntime) -> io::Result<Book> {
    let mut b = Book::fresh();
    taken(rt, spec(&mut b, 0, 1, 0, 14))?;
    taken(rt, spec(&mut b, 1, 2, 0, 13))?;
    taken(rt, spec(&mut b, 2, 4, 0, 11))?;
    taken(rt, spec(&mut b, 3, 8, 0, 7))?;
    Ok(b)
}

// Over the four, 28 systems: component i + 4 provides the facility of component i, and is made of the four components before it. A
// system's members have lower numbers, so the parts list of the last one rises by component.
fn deep(rt: &HostRuntime) -> io::Result<Book> {
    let mut b = four(rt)?;
    for i in 0..28 {
        taken(rt, spec(&mut b, i + 4, sets::with(0, i % 4), 0, 0))?;
        taken(rt, system_of(&mut b, i + 4, 0, &[i, i + 1, i + 2, i + 3]))?;
    }
    Ok(b)
}

// ---- the teaching book

fn table(rt: &HostRuntime, k: Book) -> io::Result<()> {
    println!(rt; "teaching book")?;
    show_set(rt, "K1, needs of tank.a", queries::needs(&k, TANK, 3))?;
    show_set(rt, "K2, undefined", queries::undefined(&k))?;
    show_set(rt, "K3, whereused of probe", queries::whereused(&k, PROBE))?;
    show_depth(rt, parts_of(rt, "parts of tank.a", k, TANK, 3)?)?;
    parts_of(rt, "parts of loop.p, with no member", k, LOOP, 2)?;
    Ok(())
}

fn shell(rt: &HostRuntime, k: Book) -> io::Result<()> {
    let mut b = k;
    told(rt, "K7, spec shell", spec(&mut b, SHELL, HOLD, 5, 0))?;
    told(rt, "K7, sys shell", system_of(&mut b, SHELL, 5, &[LOOP]))?;
    show_set(rt, "K7, needs of shell.s", queries::needs(&b, SHELL, 5))?;
    parts_of(rt, "K7, parts of shell.s", b, SHELL, 5)?;
    Ok(())
}

// probe is a part of tank and of room, and listed once.
fn room(rt: &HostRuntime, k: Book) -> io::Result<()> {
    let mut b = k;
    told(rt, "K10, spec room", spec(&mut b, ROOM, HOLD, 6, 0))?;
    told(
        rt,
        "K10, sys room",
        system_of(&mut b, ROOM, 6, &[TANK, PROBE]),
    )?;
    show_depth(rt, parts_of(rt, "K10, parts of room.q", b, ROOM, 6)?)?;
    show_parts(rt, "K10, slice of five", b, ROOM, 6, &mut [BEFORE; 5])?;
    show_parts(rt, "K10, slice of four", b, ROOM, 6, &mut [BEFORE; 4])?;
    show_parts(rt, "K10, empty slice", b, ROOM, 6, &mut [])?;
    Ok(())
}

// The questions that are put to a parts list.
fn refused(rt: &HostRuntime, k: Book) -> io::Result<()> {
    println!(rt; "refused")?;
    parts_of(rt, "component 32", k, 32, 0)?;
    parts_of(rt, "component 2^64 - 1", k, usize::MAX, 0)?;
    parts_of(rt, "version 64", k, PROBE, 64)?;
    parts_of(rt, "version 2^64 - 1", k, PROBE, usize::MAX)?;
    parts_of(rt, "shell, not specified", k, SHELL, 5)?;
    parts_of(rt, "a version that probe has not", k, PROBE, 63)?;
    show_parts(rt, "component 32, empty slice", k, 32, 0, &mut [])?;
    show_parts(
        rt,
        "shell, not specified, empty slice",
        k,
        SHELL,
        5,
        &mut [],
    )?;
    show_parts(
        rt,
        "a version that probe has not, empty slice",
        k,
        PROBE,
        63,
        &mut [],
    )?;
    show_parts(rt, "probe.one, empty slice", k, PROBE, 0, &mut [])?;
    let mut robbed = k;
    robbed.numbers[0] = 0;
    parts_of(rt, "no book", robbed, TANK, 3)?;
    parts_of(rt, "no book, component 32", robbed, 32, 0)?;
    Ok(())
}

// ---- other books

// At first 3, 7 and 9 are due, and 3 is the lowest; after 7 comes 1, whose member is then listed.
fn order(rt: &HostRuntime) -> io::Result<()> {
    println!(rt; "order")?;
    show_depth(rt, parts_of(rt, "due first", due(rt)?, 0, 5)?)?;
    let b = shared(rt)?;
    parts_of(rt, "two versions of a part, one with two users", b, 0, 1)?;
    Ok(())
}

fn last_system(rt: &HostRuntime, b: Book) -> io::Result<()> {
    println!(rt; "deep book")?;
    show_set(rt, "needs of the last system", queries::needs(&b, 31, 0))?;
    let mut out = [BEFORE; 32];
    let depth = show_parts(rt, "parts of the last system", b, 31, 0, &mut out)?;
    show_depth(rt, depth)?;
    show_parts(rt, "slice of 31", b, 31, 0, &mut [BEFORE; 31])?;
    Ok(())
}

fn print_all(rt: &HostRuntime) -> io::Result<()> {
    let k = teaching(rt)?;
    table(rt, k)?;
    shell(rt, k)?;
    room(rt, k)?;
    refused(rt, k)?;
    order(rt)?;
    last_system(rt, deep(rt)?)
}

fn main(rt: HostRuntime) {
    // A write that fails is passed over.
    let _ = print_all(&rt);
}
