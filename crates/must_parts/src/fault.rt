//! Why the buffers of a rank stop.

ghost use Rattle.std.specs.Prelude.{◌≡◌};
ghost use Rattle.must_parts.specs.declared.fault.BuffersFault.TheVariants.{NoMemory as OutOfMemory};

use must_base::NoMemory;

/// A call reaches the limit of the weights of pending operations (docs/FORMAT.md, "Limits"), or want of memory.
#[derive(Clone, Copy, Debug, PartialEq, Eq)]
pub enum BuffersFault {
    TooWide,
    NoMemory,
}

impl From<NoMemory> for BuffersFault {
    ghost from_gives = { λ _ e. e ≡ OutOfMemory };

    fn from(_: NoMemory) -> BuffersFault {
        BuffersFault::NoMemory
    }
}
