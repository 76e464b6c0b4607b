// What the deletions take out of a Book: a specification, a definition, a version. Each leaves a Book that holds exactly the changed plain
// book (`Holds` of crate book).
#![tactic(auto)]

ghost use Rattle.std.specs.Prelude.{◌≡◌, true, ◌<◌};
ghost use Rattle.model.specs.Book as model;
ghost use Rattle.model.specs.Commands.{after, DEL-SPEC, DEL-MOD, DEL-SYS, DEL-MODVAR, DEL-SYSVAR};
ghost use Rattle.book.specs.Plain.{plain, proper};
ghost use Rattle.book.specs.Changes.{Holds, HoldsVersion};

use book::{Book, Kind};

// Version v of module c is taken out. The commands of a module and of a system are two, so there are two functions.
// Asked and not in a type: what can be taken out changes with each write. `sets_kept` tells more than `holds`, which is of the plain book.
pub fn take_modvar(book: &mut Book, c: usize, v: usize)
    requires holds_version { HoldsVersion book.old.sets book.old.numbers c v }
    requires c_value { model.is_module (plain book.old).modules c ≡ true }
    ensures sets_kept { book.new.sets ≡ book.old.sets }
    ensures holds { Holds book.new.sets book.new.numbers (after (plain book.old) (DEL-MODVAR c v)) }
{
    let i = book.place_of(c, v).unwrap();
    book.set_version(i, 64);
}

// Version v of system c is taken out.
// Asked and not in a type: what can be taken out changes with each write. `sets_kept` tells more than `holds`, which is of the plain book.
pub fn take_sysvar(book: &mut Book, c: usize, v: usize)
    requires holds_version { HoldsVersion book.old.sets book.old.numbers c v }
    requires c_value { model.is_system (plain book.old).systems c ≡ true }
    ensures sets_kept { book.new.sets ≡ book.old.sets }
    ensures holds { Holds book.new.sets book.new.numbers (after (plain book.old) (DEL-SYSVAR c v)) }
{
    let place = book.place_of(c, v).unwrap();
    book.set_version(place, 64);
}

// The specification of component c is taken out, and a definition too.
// Asked and not in a type: what can be taken out changes with each write. `sets_kept` tells more than `holds`, which is of the plain book.
pub fn take_spec(book: &mut Book, c: usize)
    requires { (c < 32) × (proper book.old.sets book.old.numbers ≡ true) }
    ensures sets_kept { book.new.sets ≡ book.old.sets }
    ensures holds { Holds book.new.sets book.new.numbers (after (plain book.old) (DEL-SPEC c)) }
{
    book.set_kind(c, None);
}

// The definition of module c is taken out.
// Asked and not in a type: what can be taken out changes with each write. `sets_kept` tells more than `holds`, which is of the plain book.
pub fn take_mod(book: &mut Book, m: usize)
    requires m_bound { (m < 32) × (proper book.old.sets book.old.numbers ≡ true) }
    requires m_value { model.is_module (plain book.old).modules m ≡ true }
    ensures sets_kept { book.new.sets ≡ book.old.sets }
    ensures holds { Holds book.new.sets book.new.numbers (after (plain book.old) (DEL-MOD m)) }
{
    book.set_kind(m, Some(Kind::Undefined));
}

// The definition of system s is taken out.
// Asked and not in a type: what can be taken out changes with each write. `sets_kept` tells more than `holds`, which is of the plain book.
pub fn take_sys(book: &mut Book, s: usize)
    requires s_bound { (s < 32) × (proper book.old.sets book.old.numbers ≡ true) }
    requires s_value { model.is_system (plain book.old).systems s ≡ true }
    ensures sets_kept { book.new.sets ≡ book.old.sets }
    ensures holds { Holds book.new.sets book.new.numbers (after (plain book.old) (DEL-SYS s)) }
{
    book.set_kind(s, Some(Kind::Undefined));
}
