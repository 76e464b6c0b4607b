// What the adding commands put into a Book: a specification, a definition, a version. Each leaves a Book that holds exactly the changed plain
// book (`Holds` of crate book).
#![tactic(auto)]

ghost use Rattle.std.specs.Prelude.{◌≡◌, true, false, ℕ, ◌<◌, ◌≤◌, ◌^◌, get_or};
ghost use Rattle.sets.specs.Sets.{bit};
ghost use Rattle.sets.specs.Tests.{count};
ghost use Rattle.model.specs.Book as model;
ghost use Rattle.book.specs.Plain.{plain};
ghost use Rattle.book.specs.Changes.{Holds, HasRoom, TakesVersion, TakesDefinition, TakesSpec};
ghost use Rattle.book.specs.Changes.{with_spec, with_module, with_system, with_undefined, with_modvar, with_sysvar};
ghost use Rattle.book.specs.Changes.{row_of, implementations_of, system_from, spec_from, blank};
ghost use Rattle.book.specs.Proper.{FreePlace};

use book::{Book, Kind};

// A free place of component c.
#[tactic(auto, using(book::specs::Proper::free_there, book::specs::Proper::free_found))]
fn free_place(book: &Book, c: usize) -> usize
    requires { HasRoom book.now.sets book.now.numbers c }
    ensures { FreePlace book.now.numbers c result }
{
    c * 8 + book.slot_of(c, 64).unwrap()
}

// Version v of component c, which is not defined, is put in.
// Asked and not in a type: whether a version can be put in changes with each write to the Book.
fn put_version(book: &mut Book, c: usize, v: usize, required: u64)
    requires takes_version { TakesVersion book.old.sets book.old.numbers c v }
    requires c_value { model.is_defined (plain book.old).modules (plain book.old).systems c ≡ false }
    ensures { Holds book.new.sets book.new.numbers (with_undefined (plain book.old) c v (bit required)) }
{
    let i = free_place(book, c);
    book.set_version(i, v);
    book.set_required(i, required);
}

// Version v of module c is put in, with what it requires and its implementation.
// Asked and not in a type: whether a version can be put in changes with each write to the Book.
pub fn put_modvar(book: &mut Book, c: usize, v: usize, required: u64, implementation: u8)
    requires takes_version { TakesVersion book.old.sets book.old.numbers c v }
    requires c_value { model.is_module (plain book.old).modules c ≡ true }
    ensures { Holds book.new.sets book.new.numbers (with_modvar (plain book.old) c v (bit required) implementation) }
{
    let i = free_place(book, c);
    book.set_version(i, v);
    book.set_required(i, required);
    book.set_implementation(i, implementation);
}

// Version v of system c is put in, with empty requirements and a composition: its members, with their versions in row v.
// Asked and not in a type: whether a version can be put in changes with each write to the Book.
pub fn put_sysvar(book: &mut Book, c: usize, v: usize, members: u64, rows: &[u8; 2048])
    requires takes_version { TakesVersion book.old.sets book.old.numbers c v }
    requires c_value { (model.is_system (plain book.old).systems c ≡ true) × (members < 2 ^ 32) }
    ensures { Holds book.new.sets book.new.numbers (with_sysvar (plain book.old) c v (row_of members rows.now v)) }
{
    let i = free_place(book, c);
    book.set_version(i, v);
    book.set_required(i, 0);
    book.set_members(i, members);
    book.set_member_versions(i, rows, v);
}

// Component c is defined as a module: its version v gets the implementation at v.
// `sets_kept` tells more than `holds`, which is of the plain book alone. Beside put_sys, since a module has other fields.
pub fn put_mod(book: &mut Book, c: usize, implementations: &[u8; 64])
    requires { TakesDefinition book.old.sets book.old.numbers c }
    ensures sets_kept { book.new.sets ≡ book.old.sets }
    ensures holds { Holds book.new.sets book.new.numbers (with_module (plain book.old) c
        (implementations_of (plain book.old).specs c implementations.now)) }
{
    for j in 0..8 {
        let i = c * 8 + j;
        let v = book.version_at(i);
        if v < 64 {
            book.set_implementation(i, implementations[v]);
        }
    }
    book.set_kind(c, Some(Kind::Module));
}

// Component c is defined as a system: its version v gets the members at v, with their versions in row v.
// Beside put_mod, since a system has other fields.
pub fn put_sys(book: &mut Book, c: usize, usable: u64, members: &[u64; 64], rows: &[u8; 2048])
    requires takes_definition { (TakesDefinition book.old.sets book.old.numbers c) × (usable < 2 ^ 32) }
    requires by_index { (v : ℕ) → model.has_version (plain book.old).specs c v ≡ true → get_or members.now v 0 < 2 ^ 32 }
    ensures { Holds book.new.sets book.new.numbers (with_system (plain book.old) c (system_from
        (plain book.old).specs c usable members.now rows.now)) }
{
    for j in 0..8 {
        let i = c * 8 + j;
        let v = book.version_at(i);
        if v < 64 {
            book.set_members(i, members[v]);
            book.set_member_versions(i, rows, v);
        }
    }
    book.set_usable(c, usable);
    book.set_kind(c, Some(Kind::System));
}

// Component c is specified, with no version yet.
fn put_blank(book: &mut Book, c: usize, provides: u64, standard: u8)
    requires { TakesSpec book.old.sets book.old.numbers c }
    ensures { Holds book.new.sets book.new.numbers (with_spec (plain book.old) c (blank (bit provides) standard)) }
{
    book.free_slots(c);
    book.set_provides(c, provides);
    book.set_standard(c, standard);
    book.set_kind(c, Some(Kind::Undefined));
}

// Component c is specified: what it provides, the set of its versions, what the version v requires at v, the standard version.
pub fn put_spec(
    book: &mut Book,
    c: usize,
    provides: u64,
    versions: u64,
    requirements: &[u64; 64],
    standard: u8,
)
    requires { (TakesSpec book.old.sets book.old.numbers c) × (count 64 (bit versions) ≤ 8) }
    ensures { Holds book.new.sets book.new.numbers (with_spec (plain book.old) c (spec_from (bit provides) (bit versions)
        requirements.now standard 64)) }
{
    put_blank(book, c, provides, standard);
    for (v, &required) in requirements.iter().enumerate() {
        if sets::member(versions, v) {
            put_version(book, c, v, required);
        }
    }
}
