// B5 to B9 of one composition.
#![tactic(auto)]

ghost use Rattle.std.specs.Prelude.{◌≡◌, true};
ghost use Rattle.sets.specs.Tests.{all};
ghost use Rattle.sets.specs.Sets.{bit};
ghost use Rattle.model.specs.Book.{is_system};
ghost use Rattle.model.specs.Rules.{B5_at, B6_at, B7_at, B8_at, B9_at};
ghost use Rattle.book.specs.Plain.{plain};
ghost use Rattle.book_rules.specs.CompositionLaws.{member_ok, wanted_if};

use book::Book;
use book_needs::Needs;
use book_rules::Members;

// The component m, if it is a member, is usable, with a version that it has.
#[tactic(auto, using(book_rules::specs::CompositionLaws::member_none, book_rules::specs::CompositionLaws::member_unusable))]
fn member_ok(members: Members<'_>, m: usize) -> bool
    ensures { result ≡ member_ok (plain members.entry.book.now).specs (plain members.entry.book.now).systems members.entry.c members.entry.v m }
{
    let Some(w) = members.version(m) else {
        return true;
    };
    sets::member(members.book.usable(members.c), m) && members.book.has_version(m, w)
}

fn members_ok(book: &Book, s: usize, v: usize) -> bool
    ensures { result ≡ all 32 (member_ok (plain book.now).specs (plain book.now).systems s v) }
{
    let members = Members {
        book,
        c: s,
        v,
        set: book.members(s, v),
    };
    (0..32).all(|m| member_ok(members, m))
}

#[tactic(auto, using(book_rules::specs::CompositionLaws::b5_empty, book_rules::specs::CompositionLaws::b5_members))]
pub fn b5_at(book: &Book, s: usize, v: usize) -> bool
    ensures { result ≡ B5_at (plain book.now).specs (plain book.now).systems s v }
{
    book.members(s, v) != 0 && members_ok(book, s, v)
}

pub fn b6_at(book: &Book, s: usize, v: usize) -> bool
    ensures { result ≡ B6_at (plain book.now).specs (plain book.now).systems s v }
{
    let members = book.members(s, v);
    let mut seen: u64 = 0;
    for m in 0..32 {
        if sets::member(members, m) {
            let provided = book.provides(m);
            if !sets::disjoint(seen, provided) {
                return false;
            }
            seen = sets::union(seen, provided);
        }
    }
    true
}

// Each member provides something that is wanted.
fn all_wanted(book: &Book, s: usize, v: usize, wanted: u64) -> bool
    ensures { result ≡ all 32 (wanted_if (plain book.now).specs (plain book.now).systems s v (bit wanted)) }
{
    let members = book.members(s, v);
    (0..32).all(|m| !sets::member(members, m) || !sets::disjoint(book.provides(m), wanted))
}

// B7 and B9 ask of a system, and add to the table of needs; that its Book stays has to be said of a `&mut`, and no form is plainer.

pub fn b7_at(needs: &mut Needs<'_>, s: usize, v: usize) -> bool
    requires { is_system (plain needs.old.book.now).systems s ≡ true }
    ensures value { result ≡ B7_at (plain needs.old.book.now).specs (plain needs.old.book.now).systems s v }
    ensures same_book { needs.new.book.now ≡ needs.old.book.now }
{
    let book = needs.book;
    let needed = needs.of(s, v);
    all_wanted(book, s, v, sets::union(needed, book.provides(s)))
}

#[tactic(auto, using(book_rules::specs::CompositionLaws::b8_is))]
pub fn b8_at(book: &Book, s: usize, v: usize) -> bool
    ensures { result ≡ B8_at (plain book.now).specs (plain book.now).systems s v }
{
    sets::subset(book.provides(s), book_rules::provided(book, s, v))
}

// As b7_at: it asks of a system, and that its Book stays has to be said of a `&mut`.
pub fn b9_at(needs: &mut Needs<'_>, s: usize, v: usize) -> bool
    requires { is_system (plain needs.old.book.now).systems s ≡ true }
    ensures value { result ≡ B9_at (plain needs.old.book.now).specs (plain needs.old.book.now).systems s v }
    ensures same_book { needs.new.book.now ≡ needs.old.book.now }
{
    let book = needs.book;
    let needed = needs.of(s, v);
    let open = sets::minus(needed, book_rules::provided(book, s, v));
    sets::disjoint(open, book_rules::offered(book, s))
}
