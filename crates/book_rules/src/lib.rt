// The rules B1 to B3 of a Book, and what the crates above ask of its components. Each function says of the plain book that the two arrays
// mean what `model` defines. The table of needs and the test for 25 are defined here too (specs/Table.antt, specs/Test.antt).
#![tactic(auto)]

ghost use Rattle.std.specs.Prelude.{◌≡◌, ◌<◌, ℕ, get_or, length};
ghost use Rattle.sets.specs.Answered.{answered};
ghost use Rattle.sets.specs.Tests.{all};
ghost use Rattle.sets.specs.Sets.{bit, union_below};
ghost use Rattle.model.specs.Book.{specified, has_version, member};
ghost use Rattle.model.specs.Rules as model;
ghost use Rattle.model.specs.Rules.{B1_at, B1, B2_at, B2, B3_at, B3};
ghost use Rattle.model.specs.Limits.{one_to_eight};
ghost use Rattle.book.specs.Plain.{plain};
ghost use Rattle.book_rules.specs.RuleLaws.{own_free, count_ok, provided_by, bare};

mod members;

use book::Book;
pub use members::Members;

// ---- the members of a version

impl<'a> Members<'a> {
    // The version that the composition gives to its member m: none where m is no member.
    #[tactic(auto, using(crate::specs::WalkLaws::no_member, crate::specs::WalkLaws::member_is))]
    pub fn version(self, m: usize) -> Option<usize>
        ensures { answered result ≡ member (plain self.entry.book.now).systems self.entry.c self.entry.v m }
    {
        if !sets::member(self.set, m) {
            return None;
        }
        Some(self.book.member_version(self.c, self.v, m))
    }
}

// ---- sets of components and of facilities

// The specified components.
pub fn specified_set(book: &Book) -> u64
    ensures { bit result ≡ specified (plain book.now).specs }
{
    sets::those(32, |c| book.is_specified(c))
}

// What the components of the set provide together.
fn provided_by(book: &Book, set: u64) -> u64
    ensures { bit result ≡ union_below 32 (provided_by (plain book.now).specs (bit set)) }
{
    sets::union_of(
        32,
        |c| if sets::member(set, c) {
            book.provides(c)
        } else {
            0
        },
    )
}

// All that the usable components of s provide.
#[tactic(auto, using(crate::specs::RuleLaws::offered_at))]
pub fn offered(book: &Book, s: usize) -> u64
    ensures { bit result ≡ model.offered (plain book.now).specs (plain book.now).systems s }
{
    provided_by(book, book.usable(s))
}

// p: all that the members of the version v of s provide.
#[tactic(auto, using(crate::specs::RuleLaws::provided_at))]
pub fn provided(book: &Book, s: usize, v: usize) -> u64
    ensures { bit result ≡ model.p (plain book.now).specs (plain book.now).systems s v }
{
    provided_by(book, book.members(s, v))
}

// The set that is given for each component.
// Two functions of command_candidates have this form: their arrays have other lengths, and one function for all three is no plainer.
pub fn each_component<F: Fn(usize) -> u64>(set: F) -> [u64; 32]
    requires { (c : ℕ) → c < 32 → F.pre set c }
    ensures size { length result ≡ 32 }
    ensures each { (c : ℕ) → c < 32 → F.post set c (get_or result c 0) }
{
    let mut rows: [u64; 32] = [0; 32];
    for (c, row) in rows.iter_mut().enumerate() {
        *row = set(c);
    }
    rows
}

// ---- one to eight versions, B1

#[tactic(auto, using(crate::specs::RuleLaws::count_none, crate::specs::RuleLaws::count_is))]
fn count_ok(book: &Book, c: usize) -> bool
    ensures { result ≡ count_ok (plain book.now).specs c }
{
    let n = sets::count(book.versions(c));
    1 <= n && n <= 8
}

// Each specified component has 1 to 8 versions.
pub fn one_to_eight(book: &Book) -> bool
    ensures { result ≡ one_to_eight (plain book.now).specs }
{
    (0..32).all(|c| !book.is_specified(c) || count_ok(book, c))
}

// No version of c requires what c provides.
fn all_own_free(book: &Book, c: usize) -> bool
    ensures { result ≡ all 64 (own_free (plain book.now).specs c) }
{
    let versions = book.versions(c);
    let provided = book.provides(c);
    (0..64).all(|v| !sets::member(versions, v) || sets::disjoint(book.required(c, v), provided))
}

#[tactic(auto, using(crate::specs::RuleLaws::ands), unfolding(model::specs::Rules::B1_at, crate::specs::RuleLaws::own_free))]
fn b1_at(book: &Book, c: usize) -> bool
    ensures { result ≡ B1_at (plain book.now).specs c }
{
    all_own_free(book, c) && book.has_version(c, book.standard(c))
}

// B1
pub fn b1(book: &Book) -> bool
    ensures { result ≡ B1 (plain book.now).specs }
{
    (0..32).all(|c| !book.is_specified(c) || b1_at(book, c))
}

// ---- B2, B3

// No version of c requires anything.
pub fn all_bare(book: &Book, c: usize) -> bool
    ensures { result ≡ all 64 (bare book.now.sets book.now.numbers c) }
{
    (0..64).all(|v| book.required(c, v) == 0)
}

#[tactic(auto, using(crate::specs::RuleLaws::b2_other, crate::specs::RuleLaws::b2_unspecified, crate::specs::RuleLaws::b2_bare))]
fn b2_at(book: &Book, c: usize, known: u64) -> bool
    requires { bit known ≡ specified (plain book.now).specs }
    ensures { result ≡ B2_at (plain book.now).specs (plain book.now).modules (plain book.now).systems c }
{
    !book.is_system(c) || sets::subset(book.usable(c), known) && all_bare(book, c)
}

// B2. That a definition belongs to a specified component, that none is both module and system, and that a definition covers exactly the
// specified versions holds of every Book by its layout.
pub fn b2(book: &Book) -> bool
    ensures { result ≡ B2 (plain book.now).specs (plain book.now).modules (plain book.now).systems }
{
    let known = specified_set(book);
    (0..32).all(|c| b2_at(book, c, known))
}

#[tactic(auto, using(crate::specs::RuleLaws::b3_is))]
fn b3_at(book: &Book, s: usize) -> bool
    ensures { result ≡ B3_at (plain book.now).specs (plain book.now).systems s }
{
    sets::subset(book.provides(s), offered(book, s))
}

// B3
pub fn b3(book: &Book) -> bool
    ensures { result ≡ B3 (plain book.now).specs (plain book.now).systems }
{
    (0..32).all(|s| !book.is_system(s) || b3_at(book, s))
}
