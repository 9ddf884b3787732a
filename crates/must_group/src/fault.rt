//! Why a name isn't made.

ghost use Rattle.std.specs.Prelude.{◌≡◌};
ghost use Rattle.must_group.specs.declared.fault.NameFault.TheVariants.{NoMemory as OutOfMemory};

use must_base::NoMemory;

/// Why the name of a new communicator isn't made.
#[derive(Clone, Copy, Debug, PartialEq, Eq)]
pub enum NameFault {
    /// The path of its parent has 32 steps already.
    TooDeep,
    /// There was no memory.
    NoMemory,
}

impl From<NoMemory> for NameFault {
    ghost from_gives = { λ _ e. e ≡ OutOfMemory };

    fn from(_e: NoMemory) -> NameFault {
        NameFault::NoMemory
    }
}
