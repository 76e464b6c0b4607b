// What is asked of each number below a limit.
ghost use Rattle.std.specs.Prelude.{◌≡◌, Bool, ℕ, ◌<◌, ◌≤◌};
ghost use Rattle.sets.specs.Sets.{Set, below, bit, union_below};
ghost use Rattle.sets.specs.Tests as tests;

// Whether each number below n passes: as `(0..n).all`, of a test that is put to numbers below n alone.
// What a closure asks for has to be asked of each number below n: no form is plainer.
pub fn all<F: Fn(usize) -> bool>(n: usize, passes: F) -> bool
    requires { (k : ℕ) → k < n → F.pre passes k }
    ensures { (t : ℕ → Bool) → ((k : ℕ) (r : Bool) → k < n → F.post passes k r → r ≡ t k) → result ≡ tests.all n t }
{
    for k in 0..n {
        if !passes(k) {
            return false;
        }
    }
    true
}

// The numbers below n that pass.
// What a closure asks for has to be asked of each number below n: no form is plainer.
pub fn those<F: Fn(usize) -> bool>(n: usize, passes: F) -> u64
    requires small { n ≤ 64 }
    requires callable { (k : ℕ) → k < n → F.pre passes k }
    ensures { (t : ℕ → Bool) → ((k : ℕ) (r : Bool) → k < n → F.post passes k r → r ≡ t k) → bit result ≡ below n t }
{
    let mut found: u64 = 0;
    for k in 0..n {
        if passes(k) {
            found = crate::with(found, k);
        }
    }
    found
}

// The union of the sets that are given for the numbers below n.
// What a closure asks for has to be asked of each number below n: no form is plainer.
pub fn union_of<F: Fn(usize) -> u64>(n: usize, set: F) -> u64
    requires { (k : ℕ) → k < n → F.pre set k }
    ensures { (p : ℕ → Set) → ((k r : ℕ) → k < n → F.post set k r → bit r ≡ p k) → bit result ≡ union_below n p }
{
    let mut found: u64 = 0;
    for k in 0..n {
        found = crate::union(found, set(k));
    }
    found
}
