// The parts list of a stored version as a call, its rows written into a lent slice (document 01, "The parts list").
#![tactic(auto)]

ghost use Rattle.std.specs.Prelude.{◌≡◌, true, ◌+◌, ◌≤◌, ◌<◌, ℕ, IfSome, length};
ghost use Rattle.std.proofs.Math.Option.{Option};
ghost use Rattle.model.specs.Book.{Pair, has_version};
ghost use Rattle.model.specs.Lists.{first_from};
ghost use Rattle.model.specs.PartsList.{how_many_systems, first_pair};
ghost use Rattle.seqs.specs.Filled.{filled};
ghost use Rattle.book.specs.Plain.{plain};
ghost use Rattle.parts.specs.Listed.{Listed, depth_found, rows_found};
ghost use Rattle.parts.specs.Marks.{Closed, Marked, PartsIn};
ghost use Rattle.parts.specs.Due.{member_in, members_in, due_in, first_version, pair_found};
ghost use Rattle.parts.specs.Rows.{AllRows};
ghost use Rattle.refusal.specs.Numbers.{code};

use book::Book;
use book_rules::Members;
use book_test::{Passing, tested};
use refusal::Refusal;

// The rows of a list, and how many they are: memory is fixed, and the lent slice is written only where all of them fit.
#[derive(Drop)]
struct Rows {
    row: [u16; 256],
    count: usize,
}

// ---- what the pair is made from

// Marks version v of component c and all that it is made from. A pair is marked after its members, so what is marked need not be walked
// again; what falls is the number of systems that can still be met below. Marks have an index: a bound on a number is plainer than a type.
fn mark(passing: Passing<'_>, c: usize, v: usize, marks: &mut [u64; 32])
    requires c_bound { (c < 32) × (v < 64) }
    requires closed { Closed (plain passing.book.now).systems marks.old }
    ensures { Marked (plain passing.entry.book.now).systems c v marks.old marks.new }
{
    if sets::member(marks[c], v) {
        return;
    }
    let book = passing.book;
    let members = Members {
        book,
        c,
        v,
        set: book.members(c, v),
    };
    for m in 0..32 {
        if let Some(w) = members.version(m) {
            mark(passing, m, w, marks);
        }
    }
    marks[c] = sets::with(marks[c], v);
}

// The parts of version v of component c.
fn parts_of(passing: Passing<'_>, c: usize, v: usize) -> [u64; 32]
    requires { has_version (plain passing.book.now).specs c v ≡ true }
    ensures { PartsIn (plain passing.entry.book.now).systems c v result }
{
    let mut marks: [u64; 32] = [0; 32];
    mark(passing, c, v, &mut marks);
    marks
}

// ---- the next row

// The parts of a pair, and those of them that are listed.
// A set for each component in two arrays: one array of pairs of sets is no plainer, since the first is made as a whole.
#[derive(Clone, Copy)]
struct Tables {
    parts: [u64; 32],
    listed: [u64; 32],
}

// Component e, if it is a member, is listed with its version.
// A bound on a number is plainer than a type for it.
#[tactic(auto, using(crate::specs::DueLaws::no_member, crate::specs::DueLaws::member_marked))]
fn member_listed(members: Members<'_>, e: usize, tables: &Tables) -> bool
    requires { e < 32 }
    ensures { result ≡ member_in (plain members.entry.book.now).systems tables.now.listed members.entry.c members.entry.v e }
{
    let Some(x) = members.version(e) else {
        return true;
    };
    sets::member(tables.listed[e], x)
}

// The members of version w of d are all listed.
fn members_listed(book: &Book, d: usize, w: usize, tables: &Tables) -> bool
    ensures { result ≡ members_in (plain book.now).systems tables.now.listed d w }
{
    let members = Members {
        book,
        c: d,
        v: w,
        set: book.members(d, w),
    };
    (0..32).all(|e| member_listed(members, e, tables))
}

// Version w of d is a part that is not listed, and its members are all listed.
// A bound on a number is plainer than a type for it.
#[tactic(auto, using(crate::specs::DueLaws::not_open, crate::specs::DueLaws::if_open))]
fn is_due(book: &Book, d: usize, w: usize, tables: &Tables) -> bool
    requires { d < 32 }
    ensures { result ≡ due_in (plain book.now).systems tables.now.parts tables.now.listed d w }
{
    sets::member(sets::minus(tables.parts[d], tables.listed[d]), w)
        && members_listed(book, d, w, tables)
}

// The pair that is found for the lowest number below n for which one is found: the one search of this crate.
// What a closure asks for has to be asked of each number below n: no form is plainer.
fn first<F: Fn(usize) -> Option<(usize, usize)>>(n: usize, find: F) -> Option<(usize, usize)>
    requires { (k : ℕ) → k < n → F.pre find k }
    ensures { (f : ℕ → Option Pair) → ((k : ℕ) (r : _) → k < n → F.post find k r → pair_found r ≡ f k) → pair_found result ≡ first_from n 0 f }
{
    for k in 0..n {
        if let Some(pair) = find(k) {
            return Some(pair);
        }
    }
    None
}

// The lowest version of d that is due.
// A bound on a number is plainer than a type for it.
fn next_version(book: &Book, d: usize, tables: &Tables) -> Option<(usize, usize)>
    requires { d < 32 }
    ensures { pair_found result ≡ first_version (due_in (plain book.now).systems tables.now.parts tables.now.listed) d }
{
    if sets::subset(tables.parts[d], tables.listed[d]) {
        return None;
    }
    first(
        64,
        |w| if is_due(book, d, w, tables) {
            Some((d, w))
        } else {
            None
        },
    )
}

// The pair that is due with the lowest component, then the lowest version.
fn next_row(book: &Book, tables: &Tables) -> Option<(usize, usize)>
    ensures value { pair_found result ≡ first_pair (due_in (plain book.now).systems tables.now.parts tables.now.listed) }
    ensures in_bounds { IfSome result (λ q. (q.0 < 32) × (q.1 < 64)) }
{
    first(32, |d| next_version(book, d, tables))
}

// The rows of the parts list of version v of c. In a row of a call a pair is one number of two bytes, component × 64 + version.
fn rows_of(passing: Passing<'_>, c: usize, v: usize) -> Rows
    requires { has_version (plain passing.book.now).specs c v ≡ true }
    ensures { AllRows (plain passing.entry.book.now) c v result.count result.row }
{
    let mut tables = Tables {
        parts: parts_of(passing, c, v),
        listed: [0; 32],
    };
    let mut row: [u16; 256] = [0; 256];
    // Row k is filled where there is one: no iterator over the rows is plainer.
    for k in 0..256 {
        let Some((d, w)) = next_row(passing.book, &tables) else {
            return Rows { row, count: k };
        };
        tables.listed[d] = sets::with(tables.listed[d], w);
        // `as`: in a row of a call a pair is one number of two bytes, into which it fits.
        row[k] = (d * 64 + w) as u16;
    }
    Rows { row, count: 256 }
}

// What the call gives back where the list is in the lent slice: how many rows it has, and a depth. Memory is fixed, so the caller lends it.
#[derive(Clone, Copy)]
pub struct PartsList {
    pub rows: usize,
    pub depth: usize,
}

// The rows are written into the slice: a function of its own, for its contract.
fn write_rows(out: &mut [u16], rows: &[u16])
    requires { length rows.now ≤ length out.old }
    ensures { out.new ≡ filled rows.now out.old }
{
    out[..rows.len()].copy_from_slice(rows);
}

// The number of systems plus one: no chain is longer.
fn most_depth(book: &Book) -> usize
    ensures { result ≡ how_many_systems (plain book.now).systems + 1 }
{
    let systems = sets::those(32, |s| book.is_system(s));
    // A u32 fits: no form is plainer.
    sets::count(systems) as usize + 1
}

// ---- the call

// The parts list of version v of c, on a Book that passes the test for 25. The slice is the caller's, as no call uses the heap.
pub fn parts_in(
    passing: Passing<'_>,
    c: usize,
    v: usize,
    out: &mut [u16],
) -> Result<PartsList, Refusal>
    ensures { Listed passing.entry.book.now.sets passing.entry.book.now.numbers c v out.old
        (code result) (rows_found result) (depth_found result) out.new }
{
    query_replies::asked_of_pair(passing.book, c, v)?;
    let found = rows_of(passing, c, v);
    if out.len() < found.count {
        return Err(Refusal::DoesNotFit);
    }
    // write_rows is a function of its own, for its contract.
    write_rows(out, &found.row[..found.count]);
    Ok(PartsList {
        rows: found.count,
        depth: most_depth(passing.book),
    })
}

// The parts list of version v of c, on any Book. The slice is the caller's, as no call uses the heap.
pub fn parts(book: &Book, c: usize, v: usize, out: &mut [u16]) -> Result<PartsList, Refusal>
    ensures { Listed book.now.sets book.now.numbers c v out.old (code result) (rows_found result) (depth_found result) out.new }
{
    let book = tested(book)?;
    parts_in(book, c, v, out)
}
