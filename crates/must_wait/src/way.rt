//! Alternatives to push, which may be shared lists.

ghost use Rattle.std.specs.Prelude.{◌≡◌, ◌<◌, ◌↔◌, ℕ, Some, IsTrue};
ghost use Rattle.must_wait.specs.Ways.{number_of};

use crate::lists::Places;

/// An alternative of a call: a list of places of its own, or a shared list by its number.
#[derive(Drop)]
pub enum Way {
    Own(Places),
    Shared(u32),
}

impl Way {
    /// The number of the shared list, if it is one.
    pub(crate) fn number(&self) -> Option<u32>
        ensures { result ≡ number_of self.now }
    {
        match self {
            Way::Own(_) => None,
            Way::Shared(number) => Some(*number),
        }
    }

    /// Whether the number of the shared list, if it is one, is below this.
    pub(crate) fn is_below(&self, count: u32) -> bool
        ensures { IsTrue result ↔ ((number : ℕ) → number_of self.now ≡ Some number → number < count) }
    {
        match self {
            Way::Own(_) => true,
            Way::Shared(number) => *number < count,
        }
    }
}
