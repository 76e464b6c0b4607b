// UNDEFINED, UNUSED and WHEREUSED on a Book that is known to pass the test for 25.
#![tactic(auto)]

ghost use Rattle.std.specs.Prelude.{◌≡◌};
ghost use Rattle.sets.specs.Sets.{bit};
ghost use Rattle.model.specs.Book.{is_defined};
ghost use Rattle.book.specs.Plain.{plain};
ghost use Rattle.model.specs.Queries.{UNDEFINED, UNUSED, WHEREUSED};
ghost use Rattle.model.specs.Queries as model;
ghost use Rattle.query_replies.specs.Replied.{Replied, replied_to, numbers_in, components_in};
ghost use Rattle.query_replies.specs.Found.{undefined_at, used};
ghost use Rattle.refusal.specs.Numbers.{code, found};

use book::Book;
use book_test::Passing;
use refusal::Refusal;

// Component c is a module or a system.
#[tactic(auto, using(crate::specs::FoundLaws::defined_module, crate::specs::FoundLaws::defined_last))]
fn is_defined(book: &Book, c: usize) -> bool
    ensures { result ≡ is_defined (plain book.now).modules (plain book.now).systems c }
{
    book.is_module(c) || book.is_system(c)
}

// Component c is specified and not defined.
#[tactic(auto, using(crate::specs::FoundLaws::undefined_no, crate::specs::FoundLaws::undefined_last))]
fn is_undefined(book: &Book, c: usize) -> bool
    ensures { result ≡ undefined_at (plain book.now) c }
{
    book.is_specified(c) && !is_defined(book, c)
}

// The components that are specified and not defined.
fn undefined_set(book: &Book) -> u64
    ensures { numbers_in result ≡ model.undefined (plain book.now) }
{
    sets::those(32, |c| is_undefined(book, c))
}

// The components that are usable in some system.
fn used_set(book: &Book) -> u64
    ensures { bit result ≡ used (plain book.now).systems }
{
    sets::union_of(32, |s| book.usable(s))
}

// The modules that are usable in no system.
fn unused_set(book: &Book) -> u64
    ensures { numbers_in result ≡ model.unused (plain book.now) }
{
    let somewhere = used_set(book);
    sets::those(32, |c| book.is_module(c) && !sets::member(somewhere, c))
}

// The systems in which c is usable, directly or through usable systems.
fn user_set(book: &Book, c: usize) -> u64
    ensures { numbers_in result ≡ model.where_used (plain book.now) c }
{
    let reach = book_cycles::closure(book);
    sets::those(32, |s| s != c && sets::member(reach[s], c))
}

// UNDEFINED: a set of components. No question is put to it.
#[tactic(auto, using(query_replies::specs::QueryLaws::undefined_yes))]
pub fn undefined_in(passing: Passing<'_>) -> u64
    ensures { Replied components_in 0 result (replied_to passing.entry.book.now.sets passing.entry.book.now.numbers UNDEFINED) }
{
    undefined_set(passing.book)
}

// UNUSED: a set of components. No question is put to it.
#[tactic(auto, using(query_replies::specs::QueryLaws::unused_yes))]
pub fn unused_in(passing: Passing<'_>) -> u64
    ensures { Replied components_in 0 result (replied_to passing.entry.book.now.sets passing.entry.book.now.numbers UNUSED) }
{
    unused_set(passing.book)
}

// WHEREUSED: a set of components.
#[tactic(auto, using(query_replies::specs::QueryLaws::whereused_no, query_replies::specs::QueryLaws::whereused_yes))]
pub fn whereused_in(passing: Passing<'_>, c: usize) -> Result<u64, Refusal>
    ensures { Replied components_in (code result) (found result)
        (replied_to passing.entry.book.now.sets passing.entry.book.now.numbers (WHEREUSED c)) }
{
    query_replies::asked_of_component(passing.book, c)?;
    Ok(user_set(passing.book, c))
}
