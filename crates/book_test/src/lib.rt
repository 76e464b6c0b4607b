// B5 to B9 of every system, and the test for 25 of a Book.
#![tactic(auto)]

ghost use Rattle.std.specs.Prelude.{◌≡◌, true, ◌<◌, IfOk, Bool, ℕ};
ghost use Rattle.sets.specs.Tests.{all, if?◌then◌else◌, ◌&◌};
ghost use Rattle.model.specs.Rules.{B4, B5, B6, B7, B7_at, B8, B9, B9_at, B5_to_B9, each_composition};
ghost use Rattle.book.specs.Plain.{plain};
ghost use Rattle.book_rules.specs.RuleLaws.{unspecified};
ghost use Rattle.book_rules.specs.CompositionLaws.{of_system};
ghost use Rattle.book_rules.specs.Test as test;
ghost use Rattle.refusal.specs.Numbers.{code};

mod passing;

use book::Book;
use book_needs::Needs;
pub use passing::Passing;
use refusal::Refusal;

// ---- the rules of every composition

// The versions of system s, if it is one, pass.
// That a closure can be called has to be said: no form is plainer.
fn of_system<F: Fn(usize) -> bool>(book: &Book, s: usize, passes: F) -> bool
    requires { F.IsAlwaysCallable passes }
    ensures { (t : ℕ → ℕ → Bool) → ((v : ℕ) (r : Bool) → F.post passes v r → r ≡ t s v)
        → result ≡ of_system (plain book.now).systems t s }
{
    if !book.is_system(s) {
        return true;
    }
    let versions = book.versions(s);
    sets::all(64, |v| !sets::member(versions, v) || passes(v))
}

// The versions of every system pass.
// That a closure can be called has to be said, as above.
fn each_composition<F: Fn(usize, usize) -> bool>(book: &Book, passes: F) -> bool
    requires { F.IsAlwaysCallable passes }
    ensures { (t : ℕ → ℕ → Bool) → ((s v : ℕ) (r : Bool) → F.post passes s v r → r ≡ t s v)
        → result ≡ each_composition (plain book.now).systems t }
{
    sets::all(32, |s| of_system(book, s, |v| passes(s, v)))
}

// B5
pub fn b5(book: &Book) -> bool
    ensures { result ≡ B5 (plain book.now).specs (plain book.now).systems }
{
    each_composition(book, |s, v| book_compositions::b5_at(book, s, v))
}

// B6
pub fn b6(book: &Book) -> bool
    ensures { result ≡ B6 (plain book.now).specs (plain book.now).systems }
{
    each_composition(book, |s, v| book_compositions::b6_at(book, s, v))
}

// B8
pub fn b8(book: &Book) -> bool
    ensures { result ≡ B8 (plain book.now).specs (plain book.now).systems }
{
    each_composition(book, |s, v| book_compositions::b8_at(book, s, v))
}

// B7 and B9 ask what a version needs. They are loops, and no calls of `all`: what was walked is kept in the table from one version to
// the next. That the Book of the table stays has to be said of a `&mut`.

fn b7_of_system(needs: &mut Needs<'_>, s: usize) -> bool
    ensures value { result ≡ of_system (plain needs.old.book.now).systems
        (B7_at (plain needs.old.book.now).specs (plain needs.old.book.now).systems) s }
    ensures same_book { needs.new.book.now ≡ needs.old.book.now }
{
    if !needs.book.is_system(s) {
        return true;
    }
    let versions = needs.book.versions(s);
    for v in 0..64 {
        if sets::member(versions, v) && !book_compositions::b7_at(needs, s, v) {
            return false;
        }
    }
    true
}

// B7
pub fn b7(needs: &mut Needs<'_>) -> bool
    ensures value { result ≡ B7 (plain needs.old.book.now).specs (plain needs.old.book.now).systems }
    ensures same_book { needs.new.book.now ≡ needs.old.book.now }
{
    for s in 0..32 {
        if !b7_of_system(needs, s) {
            return false;
        }
    }
    true
}

fn b9_of_system(needs: &mut Needs<'_>, s: usize) -> bool
    ensures value { result ≡ of_system (plain needs.old.book.now).systems
        (B9_at (plain needs.old.book.now).specs (plain needs.old.book.now).systems) s }
    ensures same_book { needs.new.book.now ≡ needs.old.book.now }
{
    if !needs.book.is_system(s) {
        return true;
    }
    let versions = needs.book.versions(s);
    for v in 0..64 {
        if sets::member(versions, v) && !book_compositions::b9_at(needs, s, v) {
            return false;
        }
    }
    true
}

// B9
pub fn b9(needs: &mut Needs<'_>) -> bool
    ensures value { result ≡ B9 (plain needs.old.book.now).specs (plain needs.old.book.now).systems }
    ensures same_book { needs.new.book.now ≡ needs.old.book.now }
{
    for s in 0..32 {
        if !b9_of_system(needs, s) {
            return false;
        }
    }
    true
}

// ---- the test for 25

// B7 to B9, with one table of needs.
#[tactic(auto, using(book_rules::specs::RuleLaws::ands))]
fn b7_to_b9(needs: &mut Needs<'_>) -> bool
    ensures { result ≡ (B7 (plain needs.old.book.now).specs (plain needs.old.book.now).systems
        & B8 (plain needs.old.book.now).specs (plain needs.old.book.now).systems
        & B9 (plain needs.old.book.now).specs (plain needs.old.book.now).systems) }
{
    b7(needs) && b8(needs.book) && b9(needs)
}

// B5 to B9, of a Book in which B4 holds. What a version needs is known to end once B4 and B5 hold, and nothing is walked where B6 fails.
pub fn b5_to_b9(book: &Book) -> bool
    requires { B4 (plain book.now).systems ≡ true }
    ensures { result ≡ B5_to_B9 (plain book.now) }
{
    if !b5(book) {
        return false;
    }
    b6(book) && b7_to_b9(&mut Needs::new(book))
}

// Nothing is specified.
fn none_specified(book: &Book) -> bool
    ensures { result ≡ all 32 (unspecified (plain book.now).specs) }
{
    (0..32).all(|c| !book.is_specified(c))
}

// The parts of the test for 25, one after the other.
#[tactic(auto, using(book_rules::specs::RuleLaws::ands), unfolding(book_rules::specs::Test::passes, model::specs::Rules::B1_to_B9))]
fn passes_each(book: &Book) -> bool
    ensures { result ≡ test.passes book.now.sets book.now.numbers }
{
    book.is_proper()
        && book_rules::one_to_eight(book)
        && book_rules::b1(book)
        && book_rules::b2(book)
        && book_rules::b3(book)
        && book_cycles::b4(book)
        && b5_to_b9(book)
}

// The test for 25, of the arrays of a Book. The empty book needs no look at the rules.
#[tactic(auto, using(book_rules::specs::TestLaws::nothing_passes))]
pub fn passes(book: &Book) -> bool
    ensures { result ≡ test.passes book.now.sets book.now.numbers }
{
    none_specified(book) || passes_each(book)
}

// The test for 25.
pub fn is_book(b: Book) -> bool
    ensures { result ≡ test.passes b.sets b.numbers }
{
    passes(&b)
}

// The test for 25, as a call on any Book puts it before its other questions.
#[tactic(auto, using(crate::specs::TestedLaws::is_tested, crate::specs::TestedLaws::is_refused))]
pub fn tested(book: &Book) -> Result<Passing<'_>, Refusal>
    ensures value { code result ≡ (if? test.passes book.now.sets book.now.numbers then 0 else 25) }
    ensures same_book { IfOk result (λ p. p.book.now ≡ book.now) }
{
    if !passes(book) {
        return Err(Refusal::NoBook);
    }
    Ok(Passing { book })
}
