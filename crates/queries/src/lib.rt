// The seven queries as calls on a Book (document 01, "Queries"). Each tests for 25 and then does what the function of its name with
// `_in` does (query_replies, query_sets, query_choice).
#![tactic(auto)]

ghost use Rattle.std.specs.Prelude.{length};
ghost use Rattle.model.specs.Queries.{SUPPLIES, NEEDS, CHOICE, STANDARD, UNDEFINED, UNUSED, WHEREUSED, the_version};
ghost use Rattle.query_replies.specs.Replied.{Replied, replied_to, numbers_in, facilities_in, components_in};
ghost use Rattle.query_replies.specs.Listed.{Listed, fitted};
ghost use Rattle.refusal.specs.Numbers.{code, found};

use book::Book;
use book_test::tested;
use refusal::Refusal;

// SUPPLIES, on any Book: a set of facilities.
#[tactic(auto, using(query_replies::specs::RepliedLaws::untested))]
pub fn supplies(book: &Book, c: usize) -> Result<u64, Refusal>
    ensures { Replied facilities_in (code result) (found result) (replied_to book.now.sets book.now.numbers (SUPPLIES c)) }
{
    let book = tested(book)?;
    query_replies::supplies_in(book, c)
}

// NEEDS, on any Book: a set of facilities.
#[tactic(auto, using(query_replies::specs::RepliedLaws::untested))]
pub fn needs(book: &Book, c: usize, v: usize) -> Result<u64, Refusal>
    ensures { Replied facilities_in (code result) (found result) (replied_to book.now.sets book.now.numbers (NEEDS c v)) }
{
    let book = tested(book)?;
    query_replies::needs_in(book, c, v)
}

// STANDARD, on any Book: a version.
pub fn standard(book: &Book, c: usize) -> Result<usize, Refusal>
    ensures { Replied the_version (code result) (found result) (replied_to book.now.sets book.now.numbers (STANDARD c)) }
{
    let book = tested(book)?;
    query_replies::standard_in(book, c)
}

// UNDEFINED, on any Book: a set of components.
#[tactic(auto, using(query_replies::specs::RepliedLaws::untested))]
pub fn undefined(book: &Book) -> Result<u64, Refusal>
    ensures { Replied components_in (code result) (found result) (replied_to book.now.sets book.now.numbers UNDEFINED) }
{
    let book = tested(book)?;
    Ok(query_sets::undefined_in(book))
}

// UNUSED, on any Book: a set of components.
#[tactic(auto, using(query_replies::specs::RepliedLaws::untested))]
pub fn unused(book: &Book) -> Result<u64, Refusal>
    ensures { Replied components_in (code result) (found result) (replied_to book.now.sets book.now.numbers UNUSED) }
{
    let book = tested(book)?;
    Ok(query_sets::unused_in(book))
}

// WHEREUSED, on any Book: a set of components.
#[tactic(auto, using(query_replies::specs::RepliedLaws::untested))]
pub fn whereused(book: &Book, c: usize) -> Result<u64, Refusal>
    ensures { Replied components_in (code result) (found result) (replied_to book.now.sets book.now.numbers (WHEREUSED c)) }
{
    let book = tested(book)?;
    query_sets::whereused_in(book, c)
}

// CHOICE, on any Book, of a set of facilities: how many rows were written. A row is component × 64 + version.
pub fn choice(book: &Book, wanted: u64, out: &mut [u16]) -> Result<usize, Refusal>
    ensures { Listed out.old (code result) (found result) out.new
        (fitted (length out.old) (replied_to book.now.sets book.now.numbers (CHOICE (numbers_in wanted)))) }
{
    let book = tested(book)?;
    query_choice::choice_in(book, wanted, out)
}
