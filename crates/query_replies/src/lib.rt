// SUPPLIES, NEEDS and STANDARD on a Book that is known to pass the test for 25. What a reply means is specs/Replied.antt and
// specs/Listed.antt.
#![tactic(auto)]

ghost use Rattle.std.specs.Prelude.{◌≡◌};
ghost use Rattle.book.specs.Plain.{plain};
ghost use Rattle.model.specs.Questions.{first_no};
ghost use Rattle.model.specs.Queries.{SUPPLIES, NEEDS, STANDARD, the_version};
ghost use Rattle.query_replies.specs.Replied.{Replied, replied_to, of_component, of_pair, facilities_in};
ghost use Rattle.refusal.specs.Numbers.{code, found};

use book::Book;
use book_needs::Needs;
use book_test::Passing;
use refusal::Refusal;

// ---- questions

// The questions 1 and 4.
#[tactic(auto, using(crate::specs::RepliedLaws::component_questions))]
pub fn asked_of_component(book: &Book, c: usize) -> Result<(), Refusal>
    ensures { code result ≡ first_no (of_component (plain book.now) c) }
{
    if 32 <= c {
        return Err(Refusal::TooLarge);
    }
    if !book.is_specified(c) {
        return Err(Refusal::NotSpecified);
    }
    Ok(())
}

// The questions 1, 4 and 10.
#[tactic(auto, using(crate::specs::RepliedLaws::pair_questions))]
pub fn asked_of_pair(book: &Book, c: usize, v: usize) -> Result<(), Refusal>
    ensures { code result ≡ first_no (of_pair (plain book.now) c v) }
{
    if 64 <= v {
        return Err(Refusal::TooLarge);
    }
    asked_of_component(book, c)?;
    if !book.has_version(c, v) {
        return Err(Refusal::NoVersion);
    }
    Ok(())
}

// ---- queries on a Book that passes the test for 25

// SUPPLIES: a set of facilities.
#[tactic(auto, using(crate::specs::QueryLaws::supplies_no, crate::specs::QueryLaws::supplies_yes))]
pub fn supplies_in(passing: Passing<'_>, c: usize) -> Result<u64, Refusal>
    ensures { Replied facilities_in (code result) (found result)
        (replied_to passing.entry.book.now.sets passing.entry.book.now.numbers (SUPPLIES c)) }
{
    asked_of_component(passing.book, c)?;
    Ok(passing.book.provides(c))
}

// NEEDS: a set of facilities.
#[tactic(auto, using(crate::specs::QueryLaws::needs_no, crate::specs::QueryLaws::needs_yes))]
pub fn needs_in(passing: Passing<'_>, c: usize, v: usize) -> Result<u64, Refusal>
    ensures { Replied facilities_in (code result) (found result)
        (replied_to passing.entry.book.now.sets passing.entry.book.now.numbers (NEEDS c v)) }
{
    asked_of_pair(passing.book, c, v)?;
    let mut needs = Needs::new(passing.book);
    Ok(needs.of(c, v))
}

// STANDARD: a version.
#[tactic(auto, using(crate::specs::QueryLaws::standard_no, crate::specs::QueryLaws::standard_yes))]
pub fn standard_in(passing: Passing<'_>, c: usize) -> Result<usize, Refusal>
    ensures { Replied the_version (code result) (found result)
        (replied_to passing.entry.book.now.sets passing.entry.book.now.numbers (STANDARD c)) }
{
    asked_of_component(passing.book, c)?;
    Ok(passing.book.standard(c))
}
