// A list of numbers gathered, with what stands beside each.
ghost use Rattle.std.specs.Prelude.{◌≡◌, ⊤, ◌<◌, ◌^◌, length};

use std::alloc::AllocError;

// A list of numbers below N. The flags stay flags: the questions of all lists of a command are asked in their order, 1 of all before 2 of
// all before 3, so that a list has no answer of its own.
pub struct Gathered<T, const N: usize> {
    // a number, or what stands beside it, is not below its limit
    pub large: bool,
    // what stands beside a number is empty
    pub empty: bool,
    // a number stands twice, or what stands beside one holds a number twice
    pub twice: bool,
    // the numbers that stand in the list, as a set: the questions compare it with the sets of a Book
    pub listed: u64,
    // what stands beside a number, at its first place
    pub at: [T; N],
    pub ghost low: { listed < 2 ^ N },
    pub ghost size: { length at ≡ N },
}

impl<T: Copy, const N: usize> Clone for Gathered<T, N> {
    ghost is_clone = { λ x y. y ≡ x };

    ghost is_infallible = { λ _. ⊤ };

    // The flags stay flags, as said above.
    fn clone(&self) -> Result<Gathered<T, N>, AllocError> {
        Ok(*self)
    }
}

impl<T: Copy, const N: usize> Copy for Gathered<T, N> {}
