// CHOICE on a Book that is known to pass the test for 25.
#![tactic(auto)]

ghost use Rattle.std.specs.Prelude.{◌≡◌, true, map, ◌<◌, ◌≤◌, length};
ghost use Rattle.sets.specs.Sets.{bit};
ghost use Rattle.sets.specs.Tests.{count};
ghost use Rattle.model.specs.Lists.{rising};
ghost use Rattle.seqs.specs.Filled.{filled};
ghost use Rattle.book.specs.Plain.{plain};
ghost use Rattle.model.specs.Queries.{CHOICE};
ghost use Rattle.query_replies.specs.Replied.{replied_to, numbers_in};
ghost use Rattle.query_replies.specs.Listed.{Listed, fitted, row_of};
ghost use Rattle.query_replies.specs.Found.{chosen_at, Chosen, row_in};
ghost use Rattle.refusal.specs.Numbers.{code, found};

use book::Book;
use book_rules::each_component;
use book_test::Passing;
use refusal::Refusal;

// The versions of c that are chosen: all where c provides the facilities wanted, else none.
#[tactic(auto, using(crate::specs::ChoiceLaws::chosen_yes, crate::specs::ChoiceLaws::chosen_no))]
fn chosen_versions(book: &Book, c: usize, wanted: u64) -> u64
    ensures { bit result ≡ chosen_at (plain book.now).specs (bit wanted) c }
{
    if sets::subset(wanted, book.provides(c)) {
        return book.versions(c);
    }
    0
}

// The versions of each component that are chosen.
fn chosen_rows(book: &Book, wanted: u64) -> [u64; 32]
    ensures { Chosen (plain book.now).specs (bit wanted) result }
{
    each_component(|c| chosen_versions(book, c, wanted))
}

// How many pairs are chosen.
fn count_rows(chosen: &[u64; 32]) -> usize
    ensures { result ≡ count 2048 (row_in chosen.now) }
{
    let mut found = 0;
    for versions in chosen {
        // A u32 fits: no form is plainer.
        found += sets::count(*versions) as usize;
    }
    found
}

// The row of version v of component c as it stands in the slice: a row of a call is one number of two bytes.
#[tactic(auto, unfolding(query_replies::specs::Listed::row_of))]
fn row(c: usize, v: usize) -> u16
    requires { (c < 32) × (v < 64) }
    ensures { result ≡ row_of (c, v) }
{
    // `as`: with the bounds, which are plainer than types for them, the number fits into a u16.
    (c * 64 + v) as u16
}

// Writes the rows of these versions of component c, and says how many. The next row goes to `at`: only some of the turns write one, so that
// no iterator over the slice is plainer.
// A bound on a number is plainer than a type for it.
fn write_versions(c: usize, versions: u64, out: &mut [u16]) -> usize
    requires c_bound { c < 32 }
    requires versions_in_bounds { count 64 (bit versions) ≤ length out.old }
    ensures value { result ≡ count 64 (bit versions) }
    ensures out_after { out.new ≡ filled (map (λ v. row_of (c, v)) (rising 64 (bit versions))) out.old }
{
    if versions == 0 {
        return 0;
    }
    let mut at = 0;
    for v in 0..64 {
        if sets::member(versions, v) {
            out[at] = row(c, v);
            at += 1;
        }
    }
    at
}

// Writes the pairs that are chosen.
fn write_rows(chosen: &[u64; 32], out: &mut [u16])
    requires { count 2048 (row_in chosen.now) ≤ length out.old }
    ensures { out.new ≡ filled (rising 2048 (row_in chosen.now)) out.old }
{
    let mut at = 0;
    for (c, versions) in chosen.iter().enumerate() {
        at += write_versions(c, *versions, &mut out[at..]);
    }
}

// CHOICE, of a set of facilities: how many rows were written.
pub fn choice_in(passing: Passing<'_>, wanted: u64, out: &mut [u16]) -> Result<usize, Refusal>
    ensures { Listed out.old (code result) (found result) out.new
        (fitted (length out.old) (replied_to passing.entry.book.now.sets passing.entry.book.now.numbers (CHOICE (numbers_in wanted)))) }
{
    let chosen = chosen_rows(passing.book, wanted);
    let rows = count_rows(&chosen);
    if out.len() < rows {
        return Err(Refusal::DoesNotFit);
    }
    write_rows(&chosen, out);
    Ok(rows)
}
