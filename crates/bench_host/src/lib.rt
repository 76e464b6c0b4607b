// The test for 25, the ten calls, the queries and the parts list for a host in C or Rust, which lends a Book as its two arrays. The test in
// tests/numbers and the benchmark in bench/ link them. Names, numbers of calls, arrays and slices are the C interface.
#![tactic(auto)]

ghost use Rattle.std.specs.Prelude.{◌≡◌, length};
ghost use Rattle.bench_host.specs.Asked.{asked_by};
ghost use Rattle.book_rules.specs.Test as test;
ghost use Rattle.command_outcome.specs.Calls.{call_of, command_of};
ghost use Rattle.command_outcome.specs.Outcome.{Called};
ghost use Rattle.model.specs.Queries.{CHOICE};
ghost use Rattle.parts.specs.Listed.{Listed};
ghost use Rattle.query_replies.specs.Listed as chosen;
ghost use Rattle.query_replies.specs.Replied.{Replied, replied_to, numbers_in};
ghost use Rattle.refusal.specs.Numbers.{code, found};

use book::Book;
use refusal::Refusal;

// The test for 25. The Book's two arrays are the C interface.
#[unsafe(no_mangle)]
pub extern "C" fn version_book_test(sets: &[u64; 576], numbers: &[u8; 8768]) -> bool
    ensures { result ≡ test.passes sets.now numbers.now }
{
    let b = Book {
        sets: *sets,
        numbers: *numbers,
    };
    book_test::passes(&b)
}

// The call of a number, as in demand_3::call; ADD-MOD's implementations are lengths. The Book that it leaves is written into the last two arrays.
// All parameters are the C interface.
#[unsafe(no_mangle)]
pub extern "C" fn version_book_call(
    sets: &[u64; 576],
    numbers: &[u8; 8768],
    kind: usize,
    c: usize,
    v: usize,
    i: usize,
    set: u64,
    usable: &[usize],
    versions: &[usize],
    lengths: &[usize],
    members: &[usize],
    chosen: &[usize],
    required: &[u64],
    next_sets: &mut [u64; 576],
    next_numbers: &mut [u8; 8768],
) -> u8
    ensures { Called sets.now numbers.now
        (command_of (call_of kind c v i set usable.now versions.now lengths.now lengths.now
        members.now chosen.now required.now)) result next_sets.new next_numbers.new }
{
    let mut b = Book {
        sets: *sets,
        numbers: *numbers,
    };
    let answer = demand_3::call(
        &mut b, kind, c, v, i, set, usable, versions, lengths, lengths, members, chosen, required,
    );
    *next_sets = b.sets;
    *next_numbers = b.numbers;
    refusal::code(answer)
}

// The parts list of version v of c, written into out. It gives the answer, and writes how many rows there are and a depth. The parameters, which
// differ from those of the others, are the C interface.
#[unsafe(no_mangle)]
pub extern "C" fn version_book_parts(
    sets: &[u64; 576],
    numbers: &[u8; 8768],
    c: usize,
    v: usize,
    out: &mut [u16],
    rows: &mut usize,
    depth: &mut usize,
) -> u8
    ensures { Listed sets.now numbers.now c v out.old result rows.new depth.new out.new }
{
    let b = Book {
        sets: *sets,
        numbers: *numbers,
    };
    match parts::parts(&b, c, v, out) {
        Ok(list) => {
            *rows = list.rows;
            *depth = list.depth;
            0
        }
        Err(refusal) => {
            *rows = 0;
            *depth = 0;
            refusal.number()
        }
    }
}

// The query of a number: SUPPLIES 0, NEEDS 1, UNDEFINED 2, UNUSED 3, WHEREUSED 4, any other STANDARD: the C interface. It gives the set or the
// version as a number.
fn query(book: &Book, kind: usize, c: usize, v: usize) -> Result<u64, Refusal>
    ensures { Replied (asked_by kind c v).1 (code result) (found result)
        (replied_to book.now.sets book.now.numbers (asked_by kind c v).0) }
{
    if kind == 0 {
        return queries::supplies(book, c);
    }
    if kind == 1 {
        return queries::needs(book, c, v);
    }
    if kind == 2 {
        return queries::undefined(book);
    }
    if kind == 3 {
        return queries::unused(book);
    }
    if kind == 4 {
        return queries::whereused(book, c);
    }
    let version = queries::standard(book, c)?;
    // `as`: `u64` has no `From` of a `usize`
    Ok(version as u64)
}

// The query of a number. It gives the answer, and writes the set or the version: 0 where it is refused. The parameters are the C interface.
#[unsafe(no_mangle)]
pub extern "C" fn version_book_query(
    sets: &[u64; 576],
    numbers: &[u8; 8768],
    kind: usize,
    c: usize,
    v: usize,
    found: &mut u64,
) -> u8
    ensures { Replied (asked_by kind c v).1 result found.new
        (replied_to sets.now numbers.now (asked_by kind c v).0) }
{
    let b = Book {
        sets: *sets,
        numbers: *numbers,
    };
    match query(&b, kind, c, v) {
        Ok(number) => {
            *found = number;
            0
        }
        Err(refusal) => {
            *found = 0;
            refusal.number()
        }
    }
}

// CHOICE of a set of facilities, its rows written into out. It gives the answer, and writes how many rows there are. The parameters are the C
// interface.
#[unsafe(no_mangle)]
pub extern "C" fn version_book_choice(
    sets: &[u64; 576],
    numbers: &[u8; 8768],
    wanted: u64,
    out: &mut [u16],
    rows: &mut usize,
) -> u8
    ensures { chosen.Listed out.old result rows.new out.new
        (chosen.fitted (length out.old) (replied_to sets.now numbers.now (CHOICE (numbers_in wanted)))) }
{
    let b = Book {
        sets: *sets,
        numbers: *numbers,
    };
    match queries::choice(&b, wanted, out) {
        Ok(count) => {
            *rows = count;
            0
        }
        Err(refusal) => {
            *rows = 0;
            refusal.number()
        }
    }
}
