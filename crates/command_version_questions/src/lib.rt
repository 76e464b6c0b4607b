// The questions that are put to ADD-MODVAR and ADD-SYSVAR, in their order.
#![tactic(auto)]

ghost use Rattle.std.specs.Prelude.{◌≡◌};
ghost use Rattle.sets.specs.Sets.{bit};
ghost use Rattle.sets.specs.Tests.{◌<?◌};
ghost use Rattle.model.specs.Limits.{how_many};
ghost use Rattle.model.specs.Questions.{first_no};
ghost use Rattle.book.specs.Plain.{plain};
ghost use Rattle.command_lists.specs.Views.{composition_view};
ghost use Rattle.command_lists.specs.Answers.{modvar_answer};
ghost use Rattle.command_questions.specs.Asked.{sysvar_asked};
ghost use Rattle.refusal.specs.Numbers.{code};

use book::Book;
use command_lists::Composition;
use refusal::Refusal;

// ---- ADD-MODVAR

// Question 12: "would it have at most 8 versions?"
#[tactic(auto, using(crate::specs::VersionLaws::room_is))]
fn has_room(book: &Book, c: usize) -> bool
    ensures { result ≡ (how_many (plain book.now).specs c <? 8) }
{
    sets::count(book.versions(c)) < 8
}

#[tactic(auto, using(crate::specs::VersionLaws::modvar_asked))]
pub fn modvar_answer(
    book: &Book,
    c: usize,
    v: usize,
    required: u64,
    i: usize,
) -> Result<(), Refusal>
    ensures { code result ≡ modvar_answer (plain book.now) c v (bit required) i }
{
    command_outcome::first_no(&[
        ((c < 32) & (v < 64) & (i < 256), Refusal::TooLarge),
        (book.is_module(c), Refusal::NoModule),
        (!book.has_version(c, v), Refusal::HasVersion),
        (has_room(book, c), Refusal::NinthVersion),
        (
            sets::disjoint(book.provides(c), required),
            Refusal::RequiresItsOwn,
        ),
    ])
}

// ---- ADD-SYSVAR

// Its questions before the one that is put to the book afterwards.
#[tactic(auto, using(crate::specs::VersionLaws::sysvar_asked_lem))]
pub fn sysvar_asked(book: &Book, c: usize, v: usize, g: Composition) -> Result<(), Refusal>
    ensures { code result ≡ first_no (sysvar_asked (plain book.now) c v (composition_view g)) }
{
    command_outcome::first_no(&[
        ((c < 32) & (v < 64) & !g.large, Refusal::TooLarge),
        (g.listed != 0, Refusal::Empty),
        (!g.twice, Refusal::Twice),
        (book.is_system(c), Refusal::NoSystem),
        (!book.has_version(c, v), Refusal::HasVersion),
        (has_room(book, c), Refusal::NinthVersion),
    ])
}
