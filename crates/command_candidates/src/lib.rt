// The Book as it would be after ADD-SYS and ADD-SYSVAR: the last questions of the two commands are put to it.
#![tactic(auto)]

ghost use Rattle.std.specs.Prelude.{◌≡◌, true, ◌<◌};
ghost use Rattle.model.specs.Maps.{or_else};
ghost use Rattle.model.specs.Book.{standard};
ghost use Rattle.model.specs.Questions.{first_no};
ghost use Rattle.model.specs.Rules.{B4};
ghost use Rattle.book.specs.Changes.{Holds};
ghost use Rattle.book.specs.Plain.{plain, systems_of};
ghost use Rattle.book_rules.specs.Test as test;
ghost use Rattle.command_lists.specs.Answers.{sys_after, sysvar_after};
ghost use Rattle.command_lists.specs.Gathered.{listed};
ghost use Rattle.command_lists.specs.Views.{view, usable_view, composition_of, compositions_view, composition_view};
ghost use Rattle.command_questions.specs.Asked.{sys_asked, sysvar_asked};
ghost use Rattle.command_candidates.specs.Completed.{stored_in, row_number, row_put, members_at, Filled};
ghost use Rattle.sets.specs.Answered.{answered};

use book::Book;
use book_test::Passing;
use command_lists::{Composition, Compositions, Usable};

// ---- versions that are left out

// The version of member m that is stored: the one given, or else its standard version.
#[tactic(auto, using(crate::specs::CompletedLaws::version))]
fn version_stored(passing: Passing<'_>, m: usize, given: Option<u8>) -> u8
    ensures { result ≡ or_else (answered given) (standard (plain passing.entry.book.now).specs m) }
{
    match given {
        Some(version) => version,
        // `as`: the standard version is below 64 in a Book that passes, so that no other value need be named
        None => passing.book.standard(m) as u8,
    }
}

// The version of member m of a composition that is stored, or 0 where m is no member.
#[tactic(auto, using(crate::specs::CompletedLaws::place))]
fn stored_in(passing: Passing<'_>, composition: &Composition, m: usize) -> u8
    ensures { result ≡ stored_in (plain passing.entry.book.now).specs (composition_of composition.now) m }
{
    match composition.get(m) {
        Some(given) => version_stored(passing, m, given),
        None => 0,
    }
}

// A row of 32: the versions of the members of a composition that are stored.
// It has the form of members_of: the two arrays have other lengths, and one function for both is no plainer.
#[tactic(auto, using(crate::specs::CompletedLaws::places))]
fn row_of(passing: Passing<'_>, composition: &Composition) -> [u8; 32]
    ensures { Filled (stored_in (plain passing.entry.book.now).specs (composition_of composition.now)) 32 result 32 }
{
    let mut row: [u8; 32] = [0; 32];
    for (m, place) in row.iter_mut().enumerate() {
        *place = stored_in(passing, composition, m);
    }
    row
}

// Row v is put in. A bound on a number is plainer than a type for it.
fn put_row(rows: &mut [u8; 2048], v: usize, row: &[u8; 32])
    requires { v < 64 }
    ensures { rows.new ≡ row_put rows.old v row.now }
{
    rows[v * 32..v * 32 + 32].copy_from_slice(row);
}

// For each version a row of 32: the versions of the members at it that are stored. The writers of book_put take the rows one after the other.
// A loop over the versions: only those that have a composition are looked into.
#[tactic(auto, using(crate::specs::CompletedLaws::rows))]
fn rows_of(passing: Passing<'_>, g: &Compositions) -> [u8; 2048]
    ensures { Filled (row_number (plain passing.entry.book.now).specs (compositions_view g.now).given) 2048 result 2048 }
{
    let mut rows: [u8; 2048] = [0; 2048];
    for v in 0..64 {
        if let Some(composition) = g.get(v) {
            put_row(&mut rows, v, &row_of(passing, &composition));
        }
    }
    rows
}

// The members at version v.
#[tactic(auto, using(crate::specs::CompletedLaws::members))]
fn members_at(g: &Compositions, v: usize) -> u64
    ensures { result ≡ members_at (view g.now).given v }
{
    match g.get(v) {
        Some(composition) => composition.listed,
        None => 0,
    }
}

// At each version the members: an array that is filled place by place, whose numbers are this function's own.
// It has the form of rows_of: the two arrays have other lengths, and one function for both is no plainer.
#[tactic(auto, using(crate::specs::CompletedLaws::places))]
fn members_of(g: &Compositions) -> [u64; 64]
    ensures { Filled (members_at (view g.now).given) 64 result 64 }
{
    let mut members: [u64; 64] = [0; 64];
    for (v, place) in members.iter_mut().enumerate() {
        *place = members_at(g, v);
    }
    members
}

// ---- the Book afterwards, made in the Book that is lent

// What ADD-SYS leaves, where the questions before those about the book afterwards are answered yes.
pub fn sys_candidate(then: &mut Book, c: usize, u: Usable, g: &Compositions)
    requires passes { test.passes then.old.sets then.old.numbers ≡ true }
    requires asked { first_no (sys_asked (plain then.old) c (usable_view u) (compositions_view g.now)) ≡ 0 }
    ensures { Holds then.new.sets then.new.numbers
        (sys_after (plain then.old) c (listed (usable_view u)) (compositions_view g.now).given) }
{
    let members = members_of(g);
    let rows = rows_of(Passing { book: then }, g);
    book_put::put_sys(then, c, u.listed, &members, &rows);
}

// What ADD-SYSVAR leaves, where the questions before the one about the book afterwards are answered yes. No system is made usable in
// another, so B4 holds whatever the composition is.
pub fn sysvar_candidate(after: &mut Book, c: usize, v: usize, g: &Composition)
    requires passes { test.passes after.old.sets after.old.numbers ≡ true }
    requires asked { first_no (sysvar_asked (plain after.old) c v (composition_view g.now)) ≡ 0 }
    ensures holds { Holds after.new.sets after.new.numbers (sysvar_after (plain after.old) c v (composition_view g.now).given) }
    ensures numbers_after { B4 (systems_of after.new.sets after.new.numbers) ≡ true }
{
    let row = row_of(Passing { book: after }, g);
    let mut rows: [u8; 2048] = [0; 2048];
    put_row(&mut rows, v, &row);
    book_put::put_sysvar(after, c, v, g.listed, &rows);
}
