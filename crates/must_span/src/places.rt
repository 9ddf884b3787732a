//! Where the blocks of an indexed form begin, and how long they are.

ghost use Rattle.std.specs.Prelude.{◌≡◌, ℕ, ℤ, pos, ◌≤◌, ◌^◌, ◌*ℤ◌};
ghost use Rattle.std.specs.Int.RustNames.{unsigned_abs};
ghost use Rattle.must_type.specs.Constructs.{natural};
ghost use Rattle.must_type.specs.Allowed.{IsCount};

use must_call::{HindexItem, IndexItem};

/// A count that isn't negative.
pub(crate) fn natural(n: i32) -> u64
    requires { IsCount n }
    ensures value { result ≡ natural n }
    ensures few { result ≤ 2 ^ 31 }
{
    n as u64
}

/// So many times a distance.
pub(crate) fn times(factor: i128, distance: i128) -> i128
    requires small { unsigned_abs factor ≤ 2 ^ 31 }
    requires near { unsigned_abs distance ≤ 2 ^ 63 }
    ensures value { result ≡ factor *ℤ distance }
    ensures near { unsigned_abs result ≤ 2 ^ 94 }
{
    factor * distance
}

/// An item of a list of blocks.
pub(crate) trait Place {
    /// The item's numbers are allowed.
    ghost allowed: { Self → Type 0 };

    /// The length of its block, where items without one have the given length.
    ghost blocklength: { Self → ℕ → ℕ };

    /// Where its block begins, in bytes, by the old type's extent.
    ghost at: { Self → ℤ → ℤ };

    fn blocklength_of(&self, common: u64) -> u64
        requires allowed { allowed self.now }
        requires common { common ≤ 2 ^ 31 }
        ensures value { result ≡ blocklength self.now common }
        ensures few { result ≤ 2 ^ 31 };

    fn begins(&self, extent: i128) -> i128
        requires near { unsigned_abs extent ≤ 2 ^ 63 }
        ensures value { result ≡ at self.now extent }
        ensures near { unsigned_abs result ≤ 2 ^ 94 };
}

impl Place for IndexItem {
    ghost allowed = { λ it. IsCount it.block };

    ghost blocklength = { λ it _. natural it.block };

    ghost at = { λ it extent. it.disp *ℤ extent };

    fn blocklength_of(&self, _common: u64) -> u64 {
        natural(self.block)
    }

    fn begins(&self, extent: i128) -> i128 {
        times(i128::from(self.disp), extent)
    }
}

impl Place for HindexItem {
    ghost allowed = { λ it. IsCount it.block };

    ghost blocklength = { λ it _. natural it.block };

    ghost at = { λ it _. it.disp };

    fn blocklength_of(&self, _common: u64) -> u64 {
        natural(self.block)
    }

    fn begins(&self, _extent: i128) -> i128 {
        i128::from(self.disp)
    }
}

impl Place for i32 {
    ghost allowed = { λ _. Unit {0} };

    ghost blocklength = { λ _ common. common };

    ghost at = { λ disp extent. disp *ℤ extent };

    fn blocklength_of(&self, common: u64) -> u64 {
        common
    }

    fn begins(&self, extent: i128) -> i128 {
        times(i128::from(*self), extent)
    }
}

impl Place for i64 {
    ghost allowed = { λ _. Unit {0} };

    ghost blocklength = { λ _ common. common };

    ghost at = { λ disp _. disp };

    fn blocklength_of(&self, common: u64) -> u64 {
        common
    }

    fn begins(&self, _extent: i128) -> i128 {
        i128::from(*self)
    }
}
