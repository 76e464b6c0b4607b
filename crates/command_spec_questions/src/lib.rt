// The questions that are put to ADD-SPEC, in their order.
#![tactic(auto)]

ghost use Rattle.std.specs.Prelude.{◌≡◌};
ghost use Rattle.sets.specs.Sets.{bit};
ghost use Rattle.sets.specs.Tests.{all};
ghost use Rattle.book.specs.Plain.{plain};
ghost use Rattle.command_lists.specs.Views.{sets_view};
ghost use Rattle.command_lists.specs.Answers.{spec_answer};
ghost use Rattle.command_questions.specs.Asked.{free_at};
ghost use Rattle.refusal.specs.Numbers.{code};

use book::Book;
use command_lists::Sets;
use refusal::Refusal;

// Question 13, for one version: is what it requires, if it is listed, free of the facilities provided? The set of these stays apart from
// the versions: the writer, as the call, takes the two by themselves.
#[tactic(auto, using(crate::specs::SpecLaws::free_unlisted, crate::specs::SpecLaws::free_listed))]
fn is_free(provided: u64, g: &Sets, v: usize) -> bool
    ensures { result ≡ free_at (bit provided) (sets_view g.now) v }
{
    match g.get(v) {
        None => true,
        Some(required) => sets::disjoint(provided, required),
    }
}

// Question 13: "are the requirements free of its own facilities?" The set of these stays apart from the versions, as in the call.
fn all_free(provided: u64, g: &Sets) -> bool
    ensures { result ≡ all 64 (free_at (bit provided) (sets_view g.now)) }
{
    sets::all(64, |v| is_free(provided, g, v))
}

// The questions of ADD-SPEC. The set of the facilities provided stays apart from the versions, as in the call.
#[tactic(auto, using(crate::specs::SpecLaws::spec_asked))]
pub fn spec_answer(
    book: &Book,
    c: usize,
    provided: u64,
    g: Sets,
    standard: usize,
) -> Result<(), Refusal>
    ensures { code result ≡ spec_answer (plain book.now) c (bit provided) (sets_view g) standard }
{
    command_outcome::first_no(&[
        ((c < 32) & !g.large & (standard < 64), Refusal::TooLarge),
        (g.listed != 0, Refusal::Empty),
        (!g.twice, Refusal::Twice),
        (!book.is_specified(c), Refusal::Specified),
        (sets::count(g.listed) <= 8, Refusal::NinthVersion),
        (all_free(provided, &g), Refusal::RequiresItsOwn),
        (sets::member(g.listed, standard), Refusal::StandardNotListed),
    ])
}
