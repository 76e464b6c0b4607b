// The ten commands as calls on a Book (document 01, "The ten commands"). Each tests for 25 and then does what the function of its
// name with `_in` does (command_add, command_delete). What a call gives and leaves is `Called` (command_outcome).
#![tactic(auto, using(book_test::specs::TestedLaws::was_tested))]

ghost use Rattle.model.specs.Commands.{DEL-SPEC, DEL-MOD, DEL-SYS, DEL-MODVAR, DEL-SYSVAR};
ghost use Rattle.command_outcome.specs.Outcome.{Called};
ghost use Rattle.command_outcome.specs.Calls.{command_of, add_spec, add_mod, add_sys, add_modvar, add_sysvar};
ghost use Rattle.refusal.specs.Numbers.{code};

use book::Book;
use refusal::Refusal;

// ADD-SPEC, on any Book: the facilities provided as a set; versions, and for each the set of the facilities that it requires. The slices are
// the calls' interface, "by numbers".
pub fn add_spec(
    book: &mut Book,
    c: usize,
    provided: u64,
    versions: &[usize],
    required: &[u64],
    standard: usize,
) -> Result<(), Refusal>
    ensures { Called book.old.sets book.old.numbers (command_of (add_spec c provided versions.now required.now standard))
        (code result) book.new.sets book.new.numbers }
{
    book_test::tested(book)?;
    let g = command_slices::sets_of(versions, required);
    command_add::add_spec_in(book, c, provided, g, standard)
}

// ADD-MOD, on any Book: versions, and for each its implementation. The slices are the calls' interface, "by numbers".
pub fn add_mod(
    book: &mut Book,
    c: usize,
    versions: &[usize],
    implementations: &[usize],
) -> Result<(), Refusal>
    ensures { Called book.old.sets book.old.numbers (command_of (add_mod c versions.now implementations.now))
        (code result) book.new.sets book.new.numbers }
{
    book_test::tested(book)?;
    let g = command_slices::numbers_of(versions, implementations);
    command_add::add_mod_in(book, c, g)
}

// ADD-MODVAR, on any Book: the facilities required as a set.
pub fn add_modvar(
    book: &mut Book,
    c: usize,
    v: usize,
    required: u64,
    implementation: usize,
) -> Result<(), Refusal>
    ensures { Called book.old.sets book.old.numbers (command_of (add_modvar c v required implementation))
        (code result) book.new.sets book.new.numbers }
{
    book_test::tested(book)?;
    command_add::add_modvar_in(book, c, v, required, implementation)
}

// ADD-SYS, on any Book: usable components; versions, and for each the length of its composition; the members of all compositions one
// after the other, and for each its version or command_lists::LEFT_OUT. The slices are the calls' interface, "by numbers".
pub fn add_sys(
    book: &mut Book,
    c: usize,
    usable: &[usize],
    versions: &[usize],
    lengths: &[usize],
    members: &[usize],
    chosen: &[usize],
) -> Result<(), Refusal>
    ensures { Called book.old.sets book.old.numbers (command_of (add_sys c usable.now versions.now lengths.now members.now chosen.now))
        (code result) book.new.sets book.new.numbers }
{
    book_test::tested(book)?;
    let u = command_slices::usable_of(usable);
    let g = command_slices::compositions_of(versions, lengths, members, chosen);
    command_add::add_sys_in(book, c, u, &g)
}

// ADD-SYSVAR, on any Book: members, and for each its version or command_lists::LEFT_OUT. The slices are the calls' interface, "by numbers".
pub fn add_sysvar(
    book: &mut Book,
    c: usize,
    v: usize,
    members: &[usize],
    chosen: &[usize],
) -> Result<(), Refusal>
    ensures { Called book.old.sets book.old.numbers (command_of (add_sysvar c v members.now chosen.now))
        (code result) book.new.sets book.new.numbers }
{
    book_test::tested(book)?;
    let g = command_slices::composition_of(members, chosen);
    command_add::add_sysvar_in(book, c, v, g)
}

// DEL-SPEC, on any Book.
pub fn del_spec(book: &mut Book, c: usize) -> Result<(), Refusal>
    ensures { Called book.old.sets book.old.numbers (DEL-SPEC c) (code result) book.new.sets book.new.numbers }
{
    book_test::tested(book)?;
    command_delete::del_spec_in(book, c)
}

// DEL-MOD, on any Book.
pub fn del_mod(book: &mut Book, c: usize) -> Result<(), Refusal>
    ensures { Called book.old.sets book.old.numbers (DEL-MOD c) (code result) book.new.sets book.new.numbers }
{
    book_test::tested(book)?;
    command_delete::del_mod_in(book, c)
}

// DEL-SYS, on any Book.
pub fn del_sys(book: &mut Book, c: usize) -> Result<(), Refusal>
    ensures { Called book.old.sets book.old.numbers (DEL-SYS c) (code result) book.new.sets book.new.numbers }
{
    book_test::tested(book)?;
    command_delete::del_sys_in(book, c)
}

// DEL-MODVAR, on any Book.
pub fn del_modvar(book: &mut Book, c: usize, v: usize) -> Result<(), Refusal>
    ensures { Called book.old.sets book.old.numbers (DEL-MODVAR c v) (code result) book.new.sets book.new.numbers }
{
    book_test::tested(book)?;
    command_delete::del_modvar_in(book, c, v)
}

// DEL-SYSVAR, on any Book.
pub fn del_sysvar(book: &mut Book, c: usize, v: usize) -> Result<(), Refusal>
    ensures { Called book.old.sets book.old.numbers (DEL-SYSVAR c v) (code result) book.new.sets book.new.numbers }
{
    book_test::tested(book)?;
    command_delete::del_sysvar_in(book, c, v)
}
