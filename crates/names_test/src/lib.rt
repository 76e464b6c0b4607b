// The test of tables that are handed in with a Book (document 01, the question for 25): "For text also: do the tables hand in one valid name
// for each number in the book, no name twice in a table?"
#![tactic(auto)]

ghost use Rattle.std.specs.Prelude.{◌≡◌};
ghost use Rattle.sets.specs.Sets.{bit};
ghost use Rattle.sets.specs.Tests.{all};
ghost use Rattle.names.specs.Stored.{table_in};
ghost use Rattle.text.specs.Handed.{none_twice, version_named, component_named, names_hold};
ghost use Rattle.names_test.specs.Answered.{handed_in};
ghost use Rattle.names_test.specs.Named.{apart_from, new_at, named_if, implementation_named, version_if, component_if};

use book::Book;
use names::{Names, Table};

// ---- no name twice

#[tactic(auto, using(crate::specs::NamedLaws::apart_is))]
fn apart_from<const P: usize>(table: &Table<P>, i: usize, j: usize) -> bool
    ensures { result ≡ apart_from (table_in table.now) i j }
{
    table.name(i) != table.name(j)
}

// The name of place i, if it holds one, stands at no place below it. A place whose length is 0 or more than 32 is free.
fn new_at<const P: usize>(table: &Table<P>, i: usize) -> bool
    ensures { result ≡ new_at (table_in table.now) i }
{
    if table.name(i).is_empty() {
        return true;
    }
    sets::all(
        i,
        |j: usize| -> bool
            ensures { result ≡ apart_from (table_in table.entry.now) i j }
        { apart_from(table, i, j) },
    )
}

// "no name twice in a table"
fn none_twice<const P: usize>(table: &Table<P>) -> bool
    ensures { result ≡ none_twice (table_in table.now) }
{
    sets::all(
        P,
        |i: usize| -> bool
            ensures { result ≡ new_at (table_in table.entry.now) i }
        { new_at(table, i) },
    )
}

// ---- one valid name for each number

#[tactic(auto, using(crate::specs::NamedLaws::named_skip, crate::specs::NamedLaws::named_is))]
fn named_if(facs: &Table<64>, set: u64, f: usize) -> bool
    ensures { result ≡ named_if (table_in facs.now) (bit set) f }
{
    if !sets::member(set, f) {
        return true;
    }
    words::is_valid_name(facs.name(f))
}

// The facilities of a set.
fn all_named(facs: &Table<64>, set: u64) -> bool
    ensures { result ≡ all 64 (named_if (table_in facs.now) (bit set)) }
{
    sets::all(64, |f| named_if(facs, set, f))
}

// The implementation of version v of component c, if it is a module.
#[tactic(auto, using(crate::specs::NamedLaws::no_implementation, crate::specs::NamedLaws::implementation_is))]
fn implementation_named(book: &Book, names: &Names, c: usize, v: usize) -> bool
    ensures { result ≡ implementation_named (handed_in book.now names.now) c v }
{
    match book.implementation(c, v) {
        Some(i) => words::is_valid_implementation(names.impls.name(usize::from(i))),
        None => true,
    }
}

fn version_named(book: &Book, names: &Names, c: usize, v: usize) -> bool
    ensures { result ≡ version_named (handed_in book.now names.now) c v }
{
    let own = words::is_valid_name(names.vers.name(v));
    let required = all_named(&names.facs, book.required(c, v));
    let implementation = implementation_named(book, names, c, v);
    own & (required & implementation)
}

fn versions_named(book: &Book, names: &Names, c: usize) -> bool
    ensures { result ≡ all 64 (version_if (handed_in book.now names.now) c) }
{
    sets::all(
        64,
        |v| !book.has_version(c, v) || version_named(book, names, c, v),
    )
}

fn component_named(book: &Book, names: &Names, c: usize) -> bool
    ensures { result ≡ component_named (handed_in book.now names.now) c }
{
    let own = words::is_valid_name(names.comps.name(c));
    let provided = all_named(&names.facs, book.provides(c));
    let versions = versions_named(book, names, c);
    own & (provided & versions)
}

fn components_named(book: &Book, names: &Names) -> bool
    ensures { result ≡ all 32 (component_if (handed_in book.now names.now)) }
{
    sets::all(
        32,
        |c| !book.is_specified(c) || component_named(book, names, c),
    )
}

// "one valid name for each number in the book, no name twice in a table"
pub fn names_hold(book: &Book, names: &Names) -> bool
    ensures { result ≡ names_hold (handed_in book.now names.now) }
{
    let named = components_named(book, names);
    let comps_once = none_twice(&names.comps);
    let vers_once = none_twice(&names.vers);
    let facs_once = none_twice(&names.facs);
    let impls_once = none_twice(&names.impls);
    named & (comps_once & (vers_once & (facs_once & impls_once)))
}
