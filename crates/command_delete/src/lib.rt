// The five commands that take out, on a Book that is known to pass the test for 25.
#![tactic(auto)]

ghost use Rattle.std.specs.Prelude.{◌≡◌, true};
ghost use Rattle.book.specs.Plain.{plain};
ghost use Rattle.book_rules.specs.Test as test;
ghost use Rattle.model.specs.Commands.{DEL-SPEC, DEL-MOD, DEL-SYS, DEL-MODVAR, DEL-SYSVAR};
ghost use Rattle.model.specs.PlainBook.{answer};
ghost use Rattle.model.specs.Questions.{first_no, usable_in_none, held_by_none};
ghost use Rattle.command_outcome.specs.Outcome.{Called};
ghost use Rattle.command_delete.specs.Asked.{kind_asked, not_held_at, version_asked};
ghost use Rattle.refusal.specs.Numbers.{number, code};

use book::Book;
use refusal::Refusal;

// ---- questions

// Question 18 of DEL-SPEC: "is it usable in no system?"
#[tactic(auto, using(crate::specs::AskedLaws::not_usable), unfolding(model::specs::Questions::usable_in_none))]
fn usable_in_none(book: &Book, c: usize) -> bool
    ensures { result ≡ usable_in_none (plain book.now) c }
{
    sets::all(32, |s| !sets::member(book.usable(s), c))
}

// Question 18 of DEL-MODVAR and DEL-SYSVAR, for version w of the system s.
#[tactic(auto, using(crate::specs::AskedLaws::not_held))]
fn not_held_at(book: &Book, s: usize, w: usize, c: usize, v: usize) -> bool
    ensures { result ≡ not_held_at (plain book.now).systems c v s w }
{
    if !sets::member(book.members(s, w), c) {
        return true;
    }
    book.member_version(s, w, c) != v
}

// Question 18 of DEL-MODVAR and DEL-SYSVAR: "does no composition hold this pair?"
#[tactic(auto, unfolding(model::specs::Questions::held_by_none, crate::specs::Asked::not_held_at))]
fn held_by_none(book: &Book, c: usize, v: usize) -> bool
    ensures { result ≡ held_by_none (plain book.now) c v }
{
    sets::all(32, |s| sets::all(64, |w| not_held_at(book, s, w, c, v)))
}

// The questions of DEL-SPEC.
#[tactic(auto, using(crate::specs::DeleteLaws::spec_asked))]
fn spec_asked(book: &Book, c: usize) -> Result<(), Refusal>
    ensures { code result ≡ answer (plain book.now) (DEL-SPEC c) }
{
    command_outcome::first_no(&[
        (c < 32, Refusal::TooLarge),
        (book.is_specified(c), Refusal::NotSpecified),
        (usable_in_none(book, c), Refusal::Held),
    ])
}

// The questions of DEL-MOD, and those of DEL-SYS before the one that is put to the book afterwards.
#[tactic(auto, using(crate::specs::DeleteLaws::kind_asked_lem))]
fn kind_asked(c: usize, own: (bool, Refusal)) -> Result<(), Refusal>
    ensures { code result ≡ first_no (kind_asked c (number own.1) own.0) }
{
    command_outcome::first_no(&[(c < 32, Refusal::TooLarge), own])
}

// The questions of DEL-MODVAR and DEL-SYSVAR, with the one that they do not share. The last one goes through every composition: it is looked
// at only where the others say yes.
#[tactic(auto, using(crate::specs::DeleteLaws::versions_asked))]
fn version_asked(book: &Book, c: usize, v: usize, own: (bool, Refusal)) -> Result<(), Refusal>
    ensures { code result ≡ first_no (version_asked (plain book.now) c v (number own.1) own.0) }
{
    command_outcome::first_no(&[
        ((c < 32) & (v < 64), Refusal::TooLarge),
        own,
        (book.has_version(c, v), Refusal::NoVersion),
        (v != book.standard(c), Refusal::Standard),
    ])?;
    command_outcome::first_no(&[(held_by_none(book, c, v), Refusal::Held)])
}

// ---- commands on a Book that passes the test for 25, which is changed only where it is accepted. Each takes the Book itself and requires
// that it passes: its callers keep the Book, so that a struct of a lent Book that passes would be made and taken apart again at each call.

// DEL-SPEC. It takes the Book itself, as its callers keep it. Only numbers change, which they are promised.
pub fn del_spec_in(book: &mut Book, c: usize) -> Result<(), Refusal>
    requires { test.passes book.old.sets book.old.numbers ≡ true }
    ensures sets_kept { book.new.sets ≡ book.old.sets }
    ensures called { Called book.old.sets book.old.numbers (DEL-SPEC c) (code result) book.new.sets book.new.numbers }
{
    spec_asked(book, c)?;
    book_take::take_spec(book, c);
    Ok(())
}

// DEL-MOD. It takes the Book itself, as its callers keep it. Only numbers change, which they are promised.
pub fn del_mod_in(book: &mut Book, c: usize) -> Result<(), Refusal>
    requires { test.passes book.old.sets book.old.numbers ≡ true }
    ensures sets_kept { book.new.sets ≡ book.old.sets }
    ensures called { Called book.old.sets book.old.numbers (DEL-MOD c) (code result) book.new.sets book.new.numbers }
{
    kind_asked(c, (book.is_module(c), Refusal::NoModule))?;
    book_take::take_mod(book, c);
    Ok(())
}

// DEL-SYS: B5 to B9 are asked of every system that is left. It takes the Book itself, as its callers keep it. Only numbers change, which they
// are promised. What it shares with ADD-SYSVAR is the order alone: the questions and the change are each command's own.
pub fn del_sys_in(book: &mut Book, c: usize) -> Result<(), Refusal>
    requires { test.passes book.old.sets book.old.numbers ≡ true }
    ensures sets_kept { book.new.sets ≡ book.old.sets }
    ensures called { Called book.old.sets book.old.numbers (DEL-SYS c) (code result) book.new.sets book.new.numbers }
{
    kind_asked(c, (book.is_system(c), Refusal::NoSystem))?;
    let mut left = *book;
    book_take::take_sys(&mut left, c);
    if !book_test::b5_to_b9(&left) {
        return Err(Refusal::BreaksB5ToB9);
    }
    *book = left;
    Ok(())
}

// DEL-MODVAR. It takes the Book itself, as its callers keep it. Only numbers change, which they are promised.
pub fn del_modvar_in(book: &mut Book, c: usize, v: usize) -> Result<(), Refusal>
    requires { test.passes book.old.sets book.old.numbers ≡ true }
    ensures sets_kept { book.new.sets ≡ book.old.sets }
    ensures called { Called book.old.sets book.old.numbers (DEL-MODVAR c v) (code result) book.new.sets book.new.numbers }
{
    version_asked(book, c, v, (book.is_module(c), Refusal::NoModule))?;
    book_take::take_modvar(book, c, v);
    Ok(())
}

// DEL-SYSVAR. It takes the Book itself, as its callers keep it. Only numbers change, which they are promised.
pub fn del_sysvar_in(book: &mut Book, s: usize, v: usize) -> Result<(), Refusal>
    requires { test.passes book.old.sets book.old.numbers ≡ true }
    ensures sets_kept { book.new.sets ≡ book.old.sets }
    ensures called { Called book.old.sets book.old.numbers (DEL-SYSVAR s v) (code result) book.new.sets book.new.numbers }
{
    version_asked(book, s, v, (book.is_system(s), Refusal::NoSystem))?;
    book_take::take_sysvar(book, s, v);
    Ok(())
}
