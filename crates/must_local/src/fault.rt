//! Why a walk stops.

ghost use Rattle.std.specs.Prelude.{◌≡◌};
ghost use Rattle.must_local.specs.declared.fault.WalkFault.TheVariants.{NoMemory as OutOfMemory};

use must_base::NoMemory;
use must_format::Limit;

/// The first call that reaches a limit (docs/FORMAT.md, "Limits"), so far a communicator's path alone, or want of memory.
#[derive(Clone, Copy, Debug, PartialEq, Eq)]
pub enum WalkFault {
    TooWide { call: u32, limit: Limit },
    NoMemory,
}

impl From<NoMemory> for WalkFault {
    ghost from_gives = { λ _ e. e ≡ OutOfMemory };

    fn from(_: NoMemory) -> WalkFault {
        WalkFault::NoMemory
    }
}
