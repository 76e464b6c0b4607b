// The five adding commands, on a Book that is known to pass the test for 25. What is gathered of a command's lists goes in, and the call
// answers for every command of which that is gathered. Each takes the Book itself and requires that it passes: its callers keep the Book, so
// that a struct of a lent Book that passes would be made and taken apart again at each call.
#![tactic(auto)]

ghost use Rattle.std.specs.Prelude.{◌≡◌, true, List, ℕ};
ghost use Rattle.sets.specs.Sets.{bit};
ghost use Rattle.book_rules.specs.Test as test;
ghost use Rattle.model.specs.Book.{facilities};
ghost use Rattle.model.specs.Commands.{Members, ADD-SPEC, ADD-MOD, ADD-SYS, ADD-MODVAR, ADD-SYSVAR};
ghost use Rattle.model.specs.Lists.{set_of};
ghost use Rattle.model.specs.Questions.{each_below};
ghost use Rattle.command_lists.specs.Said.{sets_of, numbers_of, usable_of, compositions_of, members_of};
ghost use Rattle.command_lists.specs.Views.{sets_view, numbers_view, usable_view, compositions_view, composition_view};
ghost use Rattle.command_outcome.specs.Outcome.{Called};
ghost use Rattle.refusal.specs.Numbers.{code};

use book::Book;
use command_lists::{Composition, Compositions, Numbers, Sets, Usable};
use refusal::Refusal;

// ADD-SPEC. It takes the Book itself, as its callers keep it. The set provided stays apart from the versions, as in the call.
pub fn add_spec_in(
    book: &mut Book,
    c: usize,
    provided: u64,
    g: Sets,
    standard: usize,
) -> Result<(), Refusal>
    requires { test.passes book.old.sets book.old.numbers ≡ true }
    ensures { (ps : List ℕ) (vs : List (ℕ × List ℕ))
        → each_below facilities ps ≡ true → set_of ps ≡ bit provided → sets_view g ≡ sets_of vs
        → Called book.old.sets book.old.numbers (ADD-SPEC c ps vs standard) (code result) book.new.sets book.new.numbers }
{
    command_spec_questions::spec_answer(book, c, provided, g, standard)?;
    // `as`: by question 1 the standard version is below 64, so that no other value need be named
    book_put::put_spec(book, c, provided, g.listed, &g.at, standard as u8);
    Ok(())
}

// ADD-MOD. It takes the Book itself, as its callers keep it. Only numbers change, which they are promised.
pub fn add_mod_in(book: &mut Book, c: usize, g: Numbers) -> Result<(), Refusal>
    requires { test.passes book.old.sets book.old.numbers ≡ true }
    ensures sets_kept { book.new.sets ≡ book.old.sets }
    ensures called { (is : List (ℕ × ℕ)) → numbers_view g ≡ numbers_of is
        → Called book.old.sets book.old.numbers (ADD-MOD c is) (code result) book.new.sets book.new.numbers }
{
    command_questions::mod_answer(book, c, g)?;
    book_put::put_mod(book, c, &g.at);
    Ok(())
}

// ADD-MODVAR. It takes the Book itself, as its callers keep it.
pub fn add_modvar_in(
    book: &mut Book,
    c: usize,
    v: usize,
    required: u64,
    i: usize,
) -> Result<(), Refusal>
    requires { test.passes book.old.sets book.old.numbers ≡ true }
    ensures { (rs : List ℕ) → each_below facilities rs ≡ true → set_of rs ≡ bit required
        → Called book.old.sets book.old.numbers (ADD-MODVAR c v rs i) (code result) book.new.sets book.new.numbers }
{
    command_version_questions::modvar_answer(book, c, v, required, i)?;
    // `as`: by question 1 the implementation is below 256, so that no other value need be named
    book_put::put_modvar(book, c, v, required, i as u8);
    Ok(())
}

// ADD-SYS: B5 to B9 are asked of every system afterwards. It takes the Book itself, as its callers keep it.
pub fn add_sys_in(book: &mut Book, c: usize, u: Usable, g: &Compositions) -> Result<(), Refusal>
    requires { test.passes book.old.sets book.old.numbers ≡ true }
    ensures { (us : List ℕ) (ks : List (ℕ × Members)) → usable_view u ≡ usable_of us → compositions_view g.now ≡ compositions_of ks
        → Called book.old.sets book.old.numbers (ADD-SYS c us ks) (code result) book.new.sets book.new.numbers }
{
    command_questions::sys_asked(book, c, u, g)?;
    let mut then = *book;
    command_candidates::sys_candidate(&mut then, c, u, g);
    if !book_rules::b3(&then) {
        return Err(Refusal::BreaksB3);
    }
    if !book_cycles::b4(&then) {
        return Err(Refusal::BreaksB4);
    }
    if !book_test::b5_to_b9(&then) {
        return Err(Refusal::BreaksB5ToB9);
    }
    *book = then;
    Ok(())
}

// ADD-SYSVAR: B5 to B9 are asked of every system afterwards. It takes the Book itself, as its callers keep it. What it shares with DEL-SYS is
// the order alone: the questions and the change are each command's own.
pub fn add_sysvar_in(book: &mut Book, c: usize, v: usize, g: Composition) -> Result<(), Refusal>
    requires { test.passes book.old.sets book.old.numbers ≡ true }
    ensures { (ms : Members) → composition_view g ≡ members_of ms
        → Called book.old.sets book.old.numbers (ADD-SYSVAR c v ms) (code result) book.new.sets book.new.numbers }
{
    command_version_questions::sysvar_asked(book, c, v, g)?;
    let mut after = *book;
    command_candidates::sysvar_candidate(&mut after, c, v, &g);
    if !book_test::b5_to_b9(&after) {
        return Err(Refusal::BreaksB5ToB9);
    }
    *book = after;
    Ok(())
}
