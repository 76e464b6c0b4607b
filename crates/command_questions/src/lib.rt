// The questions that are put to the adding commands, of what is gathered of their lists: the first no refuses.
#![tactic(auto)]

ghost use Rattle.std.specs.Prelude.{◌≡◌};
ghost use Rattle.model.specs.Book as model;
ghost use Rattle.model.specs.Questions.{first_no};
ghost use Rattle.book.specs.Plain.{plain};
ghost use Rattle.command_lists.specs.Views.{numbers_view, compositions_view, usable_view};
ghost use Rattle.command_lists.specs.Answers.{mod_answer};
ghost use Rattle.command_questions.specs.Asked.{sys_asked};
ghost use Rattle.refusal.specs.Numbers.{code};

use book::Book;
use command_lists::{Compositions, Numbers, Usable};
use refusal::Refusal;

// Question 8: "is it undefined?"
#[tactic(auto, using(crate::specs::AskedLaws::defined_is))]
fn is_defined(book: &Book, c: usize) -> bool
    ensures { result ≡ model.is_defined (plain book.now).modules (plain book.now).systems c }
{
    book.is_module(c) | book.is_system(c)
}

// ---- ADD-MOD

#[tactic(auto, using(crate::specs::AskedLaws::mod_asked))]
pub fn mod_answer(book: &Book, c: usize, g: Numbers) -> Result<(), Refusal>
    ensures { code result ≡ mod_answer (plain book.now) c (numbers_view g) }
{
    command_outcome::first_no(&[
        ((c < 32) & !g.large, Refusal::TooLarge),
        (g.listed != 0, Refusal::Empty),
        (!g.twice, Refusal::Twice),
        (book.is_specified(c), Refusal::NotSpecified),
        (!is_defined(book, c), Refusal::Defined),
        (book.versions(c) == g.listed, Refusal::OtherVersions),
    ])
}

// ---- ADD-SYS

// Its questions before those that are put to the book afterwards.
#[tactic(auto, using(crate::specs::AskedLaws::sys_asked_lem))]
pub fn sys_asked(book: &Book, c: usize, u: Usable, g: &Compositions) -> Result<(), Refusal>
    ensures { code result ≡ first_no (sys_asked (plain book.now) c (usable_view u) (compositions_view g.now)) }
{
    command_outcome::first_no(&[
        ((c < 32) & !u.large & !g.large, Refusal::TooLarge),
        ((g.listed != 0) & !g.empty, Refusal::Empty),
        (!g.twice & !u.twice, Refusal::Twice),
        (book.is_specified(c), Refusal::NotSpecified),
        (!is_defined(book, c), Refusal::Defined),
        (book.versions(c) == g.listed, Refusal::OtherVersions),
        (book_rules::all_bare(book, c), Refusal::Requires),
        (
            sets::subset(u.listed, book_rules::specified_set(book)),
            Refusal::UsableNotSpecified,
        ),
    ])
}
