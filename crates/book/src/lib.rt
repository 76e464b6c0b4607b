// The Book value: a version book in two arrays, read by component and version. What it means is `plain_of` (specs/Plain.antt). How versions
// are stored is seen here and in the two crates of writers, book_put and book_take, alone.
#![tactic(auto)]

ghost use Rattle.std.specs.Prelude.{◌≡◌, true, ◌<◌, ◌≤◌, ◌+◌, ◌*◌, ℕ, ◌==◌, get_or, length, position, set, IfSome};
ghost use Rattle.std.proofs.Math.Option.{some};
ghost use Rattle.sets.specs.Answered.{answered};
ghost use Rattle.sets.specs.Sets.{bit};
ghost use Rattle.sets.specs.Tests.{◌&◌, all};
ghost use Rattle.model.specs.Book as model;
ghost use Rattle.book.specs.Kinds.{kind_of, number_of};
ghost use Rattle.book.specs.Layout.{Sized, freed, version_at, usable_at, members_at, row_in, slot_list};
ghost use Rattle.book.specs.Plain.{plain, place_of, proper, among_first};
ghost use Rattle.book.specs.Plain as slots;

// Two flat arrays, since the C interface lends and keeps a Book as its two arrays.
#[derive(Clone, Copy)]
pub struct Book {
    pub sets: [u64; 576],
    pub numbers: [u8; 8768],
}

// What a specified component is: a module, a system or neither.
#[derive(Clone, Copy, PartialEq, Eq)]
pub enum Kind {
    Undefined,
    Module,
    System,
}

// Where things stand: see specs/Layout.antt. In `sets`, what a component provides stands at its number.
const USABLE: usize = 32;

const REQUIRES: usize = 64;

const MEMBERS: usize = 320;

// In `numbers`, the kind of a component stands at its number.
const STANDARD: usize = 32;

const VERSION: usize = 64;

const IMPLEMENTATION: usize = 320;

const MEMBER_VERSION: usize = 576;

// The versions in a list: a number of 64 or more is none.
fn versions_in(listed: &[u8]) -> u64
    ensures { bit result ≡ among_first (length listed.now) (λ j. get_or listed.now j 0) }
{
    let mut found = 0;
    for &v in listed {
        let v = usize::from(v);
        if v < 64 {
            found = sets::with(found, v);
        }
    }
    found
}

impl Book {
    // The empty book.
    pub fn fresh() -> Book
        ensures { plain result ≡ model.empty }
    {
        Book {
            sets: [0; 576],
            numbers: [0; 8768],
        }
    }

    // What component c is: none where it is not specified. The numbers of kinds, which are bytes of the flat arrays, stand here, in set_kind
    // and in is_proper, which refuses a number above 3.
    #[tactic(auto, using(crate::specs::KindLaws::kind_ways))]
    pub fn kind(&self, c: usize) -> Option<Kind>
        ensures kind { result ≡ kind_of self.now.numbers c }
        ensures in_bounds { IfSome result (λ k. c < 32) }
    {
        if 32 <= c {
            return None;
        }
        match self.numbers[c] {
            0 => None,
            2 => Some(Kind::Module),
            3 => Some(Kind::System),
            _ => Some(Kind::Undefined),
        }
    }

    // The versions in the eight slots of component c: a number of 64 or more is none.
    // A bound on a number is plainer than a type for it, here and below.
    fn slots(&self, c: usize) -> &[u8]
        requires { c < 32 }
        ensures slots { result.now ≡ slot_list self.now.numbers c }
        ensures length { length result.now ≡ 8 }
    {
        // The arrays are flat, as C lends them: the number is below the field's length.
        &self.numbers[VERSION + c * 8..][..8]
    }

    // The first slot of component c that holds v. A slot of a Book that is_proper accepts holds a version, or 64 where it is free.
    pub fn slot_of(&self, c: usize, v: usize) -> Option<usize>
        requires { c < 32 }
        ensures slot { result ≡ position (λ w. w == v) (slot_list self.now.numbers c) }
        ensures length { length (slot_list self.now.numbers c) ≡ 8 }
        ensures in_bounds { IfSome result (λ j. j < 8) }
    {
        self.slots(c).iter().position(|&w| usize::from(w) == v)
    }

    // The place of version v of component c.
    #[tactic(auto, using(crate::specs::Readers::place_ways))]
    pub fn place_of(&self, c: usize, v: usize) -> Option<usize>
        ensures place { answered result ≡ place_of self.now.numbers c v }
        ensures in_bounds { IfSome result (λ i. i < 256) }
    {
        self.kind(c)?;
        if 64 <= v {
            return None;
        }
        let j = self.slot_of(c, v)?;
        Some(c * 8 + j)
    }

    // ---- readers

    #[tactic(auto, using(crate::specs::KindLaws::specified_told))]
    pub fn is_specified(&self, c: usize) -> bool
        ensures { result ≡ model.specified (plain self.now).specs c }
    {
        self.kind(c).is_some()
    }

    #[tactic(auto, using(crate::specs::KindLaws::module_told))]
    pub fn is_module(&self, c: usize) -> bool
        ensures { result ≡ model.is_module (plain self.now).modules c }
    {
        self.kind(c) == Some(Kind::Module)
    }

    #[tactic(auto, using(crate::specs::KindLaws::system_told))]
    pub fn is_system(&self, c: usize) -> bool
        ensures { result ≡ model.is_system (plain self.now).systems c }
    {
        self.kind(c) == Some(Kind::System)
    }

    // What component c provides.
    #[tactic(auto, using(crate::specs::Readers::provides_none, crate::specs::Readers::provides_some))]
    pub fn provides(&self, c: usize) -> u64
        ensures { bit result ≡ model.provides (plain self.now).specs c }
    {
        match self.kind(c) {
            None => 0,
            Some(_) => self.sets[c],
        }
    }

    // The standard version of component c: 0 where it is not specified, as the plain book has it.
    #[tactic(auto, using(crate::specs::Readers::standard_none, crate::specs::Readers::standard_some))]
    pub fn standard(&self, c: usize) -> usize
        ensures { result ≡ model.standard (plain self.now).specs c }
    {
        match self.kind(c) {
            None => 0,
            // The arrays are flat, as C lends them: the number is below the field's length.
            Some(_) => usize::from(self.numbers[STANDARD + c]),
        }
    }

    #[tactic(auto, using(crate::specs::Readers::version_is))]
    pub fn has_version(&self, c: usize, v: usize) -> bool
        ensures { result ≡ model.has_version (plain self.now).specs c v }
    {
        self.place_of(c, v).is_some()
    }

    // The versions of component c.
    #[tactic(auto, using(crate::specs::Readers::versions_none, crate::specs::Readers::versions_are))]
    pub fn versions(&self, c: usize) -> u64
        ensures { bit result ≡ model.has_version (plain self.now).specs c }
    {
        match self.kind(c) {
            None => 0,
            Some(_) => versions_in(self.slots(c)),
        }
    }

    // What version v of component c requires: nothing where c has no version v.
    #[tactic(auto, using(crate::specs::Readers::required_none, crate::specs::Readers::required_some))]
    pub fn required(&self, c: usize, v: usize) -> u64
        ensures { bit result ≡ model.requires (plain self.now).specs c v }
    {
        let Some(i) = self.place_of(c, v) else {
            return 0;
        };
        // The arrays are flat, as C lends them: the number is below the field's length.
        self.sets[REQUIRES + i]
    }

    // The implementation of version v of module c.
    #[tactic(auto, using(crate::specs::Readers::implementation_ways))]
    pub fn implementation(&self, c: usize, v: usize) -> Option<u8>
        ensures { answered result ≡ model.implementation (plain self.now).modules c v }
    {
        if !self.is_module(c) {
            return None;
        }
        let i = self.place_of(c, v)?;
        // The arrays are flat, as C lends them: the number is below the field's length.
        Some(self.numbers[IMPLEMENTATION + i])
    }

    // The usable components of c: none where it is no system.
    #[tactic(auto, using(crate::specs::Readers::usable_ways))]
    pub fn usable(&self, c: usize) -> u64
        ensures { bit result ≡ model.usable (plain self.now).systems c }
    {
        if !self.is_system(c) {
            return 0;
        }
        sets::below_32(self.usable_at(c))
    }

    // The members of version v of c: none where c is no system or has no version v.
    #[tactic(auto, using(crate::specs::Readers::members_ways))]
    pub fn members(&self, c: usize, v: usize) -> u64
        ensures { bit result ≡ model.is_member (plain self.now).systems c v }
    {
        if !self.is_system(c) {
            return 0;
        }
        let Some(i) = self.place_of(c, v) else {
            return 0;
        };
        sets::below_32(self.members_at(i))
    }

    // The version that the composition of version v of c gives to its member m.
    #[tactic(auto, using(crate::specs::Readers::member_version_ways))]
    pub fn member_version(&self, c: usize, v: usize, m: usize) -> usize
        requires { model.is_member (plain self.now).systems c v m ≡ true }
        ensures { model.member (plain self.now).systems c v m ≡ some result }
    {
        let i = self.place_of(c, v).unwrap();
        // The arrays are flat, as C lends them: the number is below the field's length.
        usize::from(self.numbers[MEMBER_VERSION + (i * 32 + m)])
    }

    // ---- what the writers, book_put and book_take, do to the arrays: a method for each field. i is a place, and c a component below 32

    // A bound on a number is plainer than a type for it.
    pub fn version_at(&self, i: usize) -> usize
        requires { i < 256 }
        ensures { result ≡ version_at self.now.numbers i }
    {
        // The arrays are flat, as C lends them: the number is below the field's length.
        usize::from(self.numbers[VERSION + i])
    }

    fn usable_at(&self, c: usize) -> u64
        requires { c < 32 }
        ensures { result ≡ usable_at self.now.sets c }
    {
        // The arrays are flat, as C lends them: the number is below the field's length.
        self.sets[USABLE + c]
    }

    // A bound on a number is plainer than a type for it.
    fn members_at(&self, i: usize) -> u64
        requires { i < 256 }
        ensures { result ≡ members_at self.now.sets i }
    {
        // The arrays are flat, as C lends them: the number is below the field's length.
        self.sets[MEMBERS + i]
    }

    // Component c becomes what is given: none makes it unspecified.
    pub fn set_kind(&mut self, c: usize, kind: Option<Kind>)
        requires { c < 32 }
        ensures sets_kept { self.new.sets ≡ self.old.sets }
        ensures numbers { self.new.numbers ≡ set self.old.numbers c (number_of kind) }
        ensures sized { Sized self.old.sets self.old.numbers }
    {
        self.numbers[c] = match kind {
            None => 0,
            Some(Kind::Undefined) => 1,
            Some(Kind::Module) => 2,
            Some(Kind::System) => 3,
        };
    }

    // Each field has a method of its own. A bound on a number is plainer than a type for it.
    pub fn set_provides(&mut self, c: usize, facilities: u64)
        requires { c < 32 }
        ensures sets { self.new.sets ≡ set self.old.sets c facilities }
        ensures sized { Sized self.old.sets self.old.numbers }
        ensures numbers_kept { self.new.numbers ≡ self.old.numbers }
    {
        self.sets[c] = facilities;
    }

    pub fn set_standard(&mut self, c: usize, v: u8)
        requires { c < 32 }
        ensures sets_kept { self.new.sets ≡ self.old.sets }
        ensures numbers { self.new.numbers ≡ set self.old.numbers (32 + c) v }
        ensures sized { Sized self.old.sets self.old.numbers }
    {
        // The arrays are flat, as C lends them: the number is below the field's length.
        self.numbers[STANDARD + c] = v;
    }

    // Each field has a method of its own. A bound on a number is plainer than a type for it.
    pub fn set_usable(&mut self, c: usize, components: u64)
        requires { c < 32 }
        ensures sets { self.new.sets ≡ set self.old.sets (32 + c) components }
        ensures sized { Sized self.old.sets self.old.numbers }
        ensures numbers_kept { self.new.numbers ≡ self.old.numbers }
    {
        // The arrays are flat, as C lends them: the number is below the field's length.
        self.sets[USABLE + c] = components;
    }

    // 64 frees the place.
    pub fn set_version(&mut self, i: usize, v: usize)
        requires { (i < 256) × (v ≤ 64) }
        ensures sets_kept { self.new.sets ≡ self.old.sets }
        ensures numbers { self.new.numbers ≡ set self.old.numbers (64 + i) v }
        ensures sized { Sized self.old.sets self.old.numbers }
    {
        // The arrays are flat, as C lends them: the number is below the field's length.
        self.numbers[VERSION + i] = u8::try_from(v).unwrap();
    }

    // Each field has a method of its own. A bound on a number is plainer than a type for it.
    pub fn free_slots(&mut self, c: usize)
        requires { c < 32 }
        ensures sets_kept { self.new.sets ≡ self.old.sets }
        ensures numbers { self.new.numbers ≡ freed self.old.numbers c }
        ensures sized { Sized self.old.sets self.old.numbers }
    {
        // The arrays are flat, as C lends them: the number is below the field's length.
        let start = VERSION + c * 8;
        self.numbers[start..start + 8].fill(64);
    }

    pub fn set_required(&mut self, i: usize, facilities: u64)
        requires { i < 256 }
        ensures sets { self.new.sets ≡ set self.old.sets (64 + i) facilities }
        ensures sized { Sized self.old.sets self.old.numbers }
        ensures numbers_kept { self.new.numbers ≡ self.old.numbers }
    {
        // The arrays are flat, as C lends them: the number is below the field's length.
        self.sets[REQUIRES + i] = facilities;
    }

    // Each field has a method of its own. A bound on a number is plainer than a type for it.
    pub fn set_implementation(&mut self, i: usize, implementation: u8)
        requires { i < 256 }
        ensures sets_kept { self.new.sets ≡ self.old.sets }
        ensures numbers { self.new.numbers ≡ set self.old.numbers (320 + i) implementation }
        ensures sized { Sized self.old.sets self.old.numbers }
    {
        // The arrays are flat, as C lends them: the number is below the field's length.
        self.numbers[IMPLEMENTATION + i] = implementation;
    }

    pub fn set_members(&mut self, i: usize, components: u64)
        requires { i < 256 }
        ensures sets { self.new.sets ≡ set self.old.sets (320 + i) components }
        ensures sized { Sized self.old.sets self.old.numbers }
        ensures numbers_kept { self.new.numbers ≡ self.old.numbers }
    {
        // The arrays are flat, as C lends them: the number is below the field's length.
        self.sets[MEMBERS + i] = components;
    }

    // The versions of the members: row v of rows.
    // A bound on a number is plainer than a type for it.
    pub fn set_member_versions(&mut self, i: usize, rows: &[u8; 2048], v: usize)
        requires { (i < 256) × (v < 64) }
        ensures sets_kept { self.new.sets ≡ self.old.sets }
        ensures numbers { self.new.numbers ≡ row_in self.old.numbers i rows.now v }
        ensures sized { Sized self.old.sets self.old.numbers }
    {
        let row = &rows[v * 32..v * 32 + 32];
        // The arrays are flat, as C lends them: the number is below the field's length.
        let start = MEMBER_VERSION + i * 32;
        self.numbers[start..start + 32].copy_from_slice(row);
    }

    // ---- the part of the test for 25 that is put to the arrays themselves: is_proper asks it of each component c below 32

    // The slots of component c hold versions, or are free.
    // A bound on a number is plainer than a type for it.
    #[tactic(auto, unfolding(crate::specs::Plain::slot_low))]
    fn slots_low(&self, c: usize) -> bool
        requires { c < 32 }
        ensures { result ≡ all 8 (slots.slot_low self.now.numbers c) }
    {
        (0..8).all(|j| self.version_at(c * 8 + j) <= 64)
    }

    // Slots j and k do not hold one version, or are one slot.
    fn slots_apart(&self, c: usize, j: usize, k: usize) -> bool
        requires { (c < 32) × (j < 8) × (k < 8) }
        ensures { result ≡ slots.slots_apart self.now.numbers c j k }
    {
        let v = self.version_at(c * 8 + j);
        64 <= v || v != self.version_at(c * 8 + k) || j == k
    }

    // A bound on a number is plainer than a type for it.
    fn slot_apart(&self, c: usize, j: usize) -> bool
        requires { (c < 32) × (j < 8) }
        ensures { result ≡ slots.slot_apart self.now.numbers c j }
    {
        (0..8).all(|k| self.slots_apart(c, j, k))
    }

    fn all_apart(&self, c: usize) -> bool
        requires { c < 32 }
        ensures { result ≡ all 8 (slots.slot_apart self.now.numbers c) }
    {
        (0..8).all(|j| self.slot_apart(c, j))
    }

    // Slot j of a system is free, or the members of its version are below 32.
    // A bound on a number is plainer than a type for it.
    #[tactic(auto, using(crate::specs::TestLaws::members_free, crate::specs::TestLaws::members_is))]
    fn members_low(&self, c: usize, j: usize) -> bool
        requires { (c < 32) × (j < 8) }
        ensures { result ≡ slots.members_low self.now.sets self.now.numbers c j }
    {
        64 <= self.version_at(c * 8 + j) || self.members_at(c * 8 + j) < 1 << 32
    }

    fn all_members_low(&self, c: usize) -> bool
        requires { c < 32 }
        ensures { result ≡ all 8 (slots.members_low self.now.sets self.now.numbers c) }
    {
        (0..8).all(|j| self.members_low(c, j))
    }

    // A bound on a number is plainer than a type for it.
    #[tactic(auto, using(crate::specs::TestLaws::sets_high, crate::specs::TestLaws::sets_is))]
    fn sets_low(&self, c: usize) -> bool
        requires { c < 32 }
        ensures { result ≡ slots.sets_low self.now.sets self.now.numbers c }
    {
        self.usable_at(c) < 1 << 32 && self.all_members_low(c)
    }

    #[tactic(auto, using(sets::specs::TestLaws::and_asked, sets::specs::TestLaws::and_unasked))]
    fn slots_proper(&self, c: usize) -> bool
        requires { c < 32 }
        ensures { result ≡ (all 8 (slots.slot_low self.now.numbers c) & all 8 (slots.slot_apart self.now.numbers c)) }
    {
        self.slots_low(c) && self.all_apart(c)
    }

    // Numbers are told apart here, and not kinds, since a number that is no kind's is refused.
    // A bound on a number is plainer than a type for it.
    #[tactic(auto, using(crate::specs::TestLaws::proper_ways))]
    fn proper_if(&self, c: usize) -> bool
        requires { c < 32 }
        ensures { result ≡ slots.proper_if self.now.sets self.now.numbers c }
    {
        match self.numbers[c] {
            0 => true,
            1 | 2 => self.slots_proper(c),
            3 => self.slots_proper(c) && self.sets_low(c),
            _ => false,
        }
    }

    // The numbers that stand in the arrays are below their limits, and no component has a version twice.
    pub fn is_proper(&self) -> bool
        ensures { result ≡ proper self.now.sets self.now.numbers }
    {
        (0..32).all(|c| self.proper_if(c))
    }
}
