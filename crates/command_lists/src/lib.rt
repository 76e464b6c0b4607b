// What the five adding commands ask for: each list of a command gathered entry by entry into a set and an array indexed by number, with
// flags. The slices of a call and the reader of a text meet here.
#![tactic(auto)]

ghost use Rattle.std.specs.Prelude.{◌≡◌, true, List, ℕ, ◌≤◌};
ghost use Rattle.sets.specs.Answered.{answered};
ghost use Rattle.sets.specs.Sets.{bit};
ghost use Rattle.model.specs.Book.{facilities};
ghost use Rattle.model.specs.Commands.{Members};
ghost use Rattle.model.specs.Lists.{set_of};
ghost use Rattle.model.specs.Questions.{each_below};
ghost use Rattle.command_lists.specs.Gathered.{large_of, nothing};
ghost use Rattle.command_lists.specs.Said.{sets_step, numbers_step, members_step, members_of, compositions_step, plain_step, usable_step, alone};
ghost use Rattle.command_lists.specs.Views.{maybe, view, sets_view, numbers_view, composition_view, compositions_view, usable_view};

mod gathered;

pub use gathered::Gathered;

// Versions with the set of facilities that each requires.
pub type Sets = Gathered<u64, 64>;

// Versions with their implementations.
pub type Numbers = Gathered<u8, 64>;

// Members with their versions, where these are not left out.
pub type Composition = Gathered<Option<u8>, 32>;

// Versions with their compositions.
pub type Compositions = Gathered<Composition, 64>;

// Usable components: nothing stands beside them.
pub type Usable = Gathered<(), 32>;

// The mark in a call's slices that a member's version is left out: a number of the calls' interface, which command_slices makes an Option.
pub const LEFT_OUT: usize = 65535;

impl<T: Copy, const N: usize> Gathered<T, N> {
    // No entry: the flags stay flags, as Gathered says.
    #[tactic(auto, using(crate::specs::ViewLaws::seen_nothing))]
    pub fn none(blank: T) -> Gathered<T, N>
        ensures { view result ≡ nothing }
    {
        Gathered {
            large: false,
            empty: false,
            twice: false,
            listed: 0,
            at: [blank; N],
        }
    }

    // One entry more, which is not below its limit: the flags stay flags, as Gathered says.
    #[tactic(auto, using(crate::specs::ViewLaws::seen_large))]
    pub fn add_large(&mut self)
        ensures { view self.new ≡ large_of (view self.old) }
    {
        self.large = true;
    }

    // The same of a list that is handed on.
    pub fn with_large(self) -> Gathered<T, N>
        ensures { view result ≡ large_of (view self) }
    {
        let mut n = self;
        n.add_large();
        n
    }

    // One entry more: number v with `beside`. What stands at a number's first place is kept. The flags stay flags, as Gathered says. The list is
    // changed where it stands, since one of compositions has some 5,000 bytes.
    #[tactic(auto, using(crate::specs::ViewLaws::one_more))]
    pub fn add(&mut self, v: usize, beside: T)
        requires { N ≤ 64 }
        ensures { view self.new ≡ plain_step N (view self.old) (v, beside) }
    {
        if N <= v {
            self.large = true;
            return;
        }
        if sets::member(self.listed, v) {
            self.twice = true;
            return;
        }
        self.listed = sets::with(self.listed, v);
        self.at[v] = beside;
    }

    // The same of a list that is handed on.
    pub fn with(self, v: usize, beside: T) -> Gathered<T, N>
        requires { N ≤ 64 }
        ensures { view result ≡ plain_step N (view self) (v, beside) }
    {
        let mut n = self;
        n.add(v, beside);
        n
    }

    // What stands beside number v, if this is listed.
    #[tactic(auto, using(crate::specs::ViewLaws::read_at))]
    pub fn get(&self, v: usize) -> Option<T>
        ensures { maybe result ≡ (view self.now).given v }
    {
        if sets::member(self.listed, v) {
            Some(self.at[v])
        } else {
            None
        }
    }
}

// Version v, with the set of facilities that it requires.
#[tactic(auto, using(crate::specs::MappedLaws::set_entry))]
pub fn with_set(g: Sets, v: usize, required: u64) -> Sets
    ensures { (fs : List ℕ) → each_below facilities fs ≡ true → set_of fs ≡ bit required
        → sets_view result ≡ sets_step (sets_view g) (v, fs) }
{
    g.with(v, required)
}

// Version v, with its implementation.
#[tactic(auto, using(crate::specs::MappedLaws::number_entry, crate::specs::MappedLaws::number_large))]
pub fn with_number(g: Numbers, v: usize, i: usize) -> Numbers
    ensures { numbers_view result ≡ numbers_step (numbers_view g) (v, i) }
{
    match u8::try_from(i) {
        Ok(i) => g.with(v, i),
        Err(_) => g.with_large(),
    }
}

// Member m, with its version where this is not left out.
#[tactic(auto, using(crate::specs::MappedLaws::member_steps))]
pub fn with_member(g: Composition, m: usize, version: Option<usize>) -> Composition
    ensures { composition_view result ≡ members_step (composition_view g) (m, answered version) }
{
    let Some(v) = version else {
        return g.with(m, None);
    };
    match u8::try_from(v) {
        Ok(v) if v < 64 => g.with(m, Some(v)),
        _ => g.with_large(),
    }
}

// Version v, with its composition. The list is changed where it stands, as by add.
#[tactic(auto, using(crate::specs::CompositionLaws::composition_steps))]
pub fn add_composition(g: &mut Compositions, v: usize, k: &Composition)
    ensures { (ms : Members) → composition_view k.now ≡ members_of ms
        → compositions_view g.new ≡ compositions_step (compositions_view g.old) (v, ms) }
{
    if 64 <= v || k.large {
        g.add_large();
        return;
    }
    g.add(v, *k);
    g.empty = g.empty | (k.listed == 0);
    g.twice = g.twice | k.twice;
}

// The same of a list that is handed on.
pub fn with_composition(g: Compositions, v: usize, k: Composition) -> Compositions
    ensures { (ms : Members) → composition_view k ≡ members_of ms
        → compositions_view result ≡ compositions_step (compositions_view g) (v, ms) }
{
    let mut n = g;
    add_composition(&mut n, v, &k);
    n
}

// The usable component c.
#[tactic(auto, using(crate::specs::MappedLaws::usable_entry))]
pub fn with_usable(g: Usable, c: usize) -> Usable
    ensures { usable_view result ≡ usable_step (usable_view g) (alone c) }
{
    g.with(c, ())
}
