// Sets of numbers below 64, as the binary digits of a u64.
#![tactic(auto)]

ghost use Rattle.std.specs.Prelude.{◌≡◌, ◌<◌};
ghost use Rattle.sets.specs.Tests as tests;
ghost use Rattle.sets.specs.Sets.{bit};
ghost use Rattle.sets.specs.Sets as sets;

mod below;

pub use below::{all, those, union_of};

// f is in the set s: a number of 64 or more is in no set.
// A set is a u64, as the calls' interface gives it. Two sets, here and below, or a set and a number: no type holds both.
pub fn member(s: u64, f: usize) -> bool
    ensures { result ≡ bit s f }
{
    f < 64 && (s >> f) % 2 == 1
}

// The numbers of either set.
#[tactic(auto, using(crate::specs::SetLaws::bit_union))]
pub fn union(a: u64, b: u64) -> u64
    ensures { bit result ≡ sets.union (bit a) (bit b) }
{
    a | b
}

// The set s and the number f: a number of 64 or more has no digit in a u64.
// A set and a number: no type holds both.
#[tactic(auto, using(crate::specs::SetLaws::bit_with))]
pub fn with(s: u64, f: usize) -> u64
    requires { f < 64 }
    ensures { bit result ≡ sets.with (bit s) f }
{
    s | 1 << f
}

// The set s but for the number f: a number of 64 or more has no digit in a u64.
// A set and a number: no type holds both.
#[tactic(auto, using(crate::specs::SetLaws::bit_without))]
pub fn without(s: u64, f: usize) -> u64
    requires { f < 64 }
    ensures { bit result ≡ sets.without (bit s) f }
{
    (s | 1 << f) ^ 1 << f
}

// The numbers of the set s that are below 32.
#[tactic(auto, using(crate::specs::SetLaws::bit_mod))]
pub fn below_32(s: u64) -> u64
    ensures { bit result ≡ sets.below 32 (bit s) }
{
    s % 4294967296
}

// The numbers of a that are not in b.
// Two sets: no type holds both.
#[tactic(auto, using(crate::specs::SetLaws::bit_minus))]
pub fn minus(a: u64, b: u64) -> u64
    ensures { bit result ≡ sets.minus (bit a) (bit b) }
{
    (a | b) ^ b
}

// Each number of a is in b.
#[tactic(auto, using(crate::specs::SetLaws::subset_by_and))]
pub fn subset(a: u64, b: u64) -> bool
    ensures { result ≡ sets.subset 64 (bit a) (bit b) }
{
    a & b == a
}

// No number is in both.
// Two sets: no type holds both.
#[tactic(auto, using(crate::specs::SetLaws::disjoint_by_and))]
pub fn disjoint(a: u64, b: u64) -> bool
    ensures { result ≡ sets.disjoint 64 (bit a) (bit b) }
{
    a & b == 0
}

// How many numbers the set s holds.
#[tactic(auto, using(crate::specs::SetLaws::ones_count))]
pub fn count(s: u64) -> u32
    ensures { result ≡ tests.count 64 (bit s) }
{
    u64::count_ones(s)
}
