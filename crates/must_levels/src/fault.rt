//! Why a run has no findings.

ghost use Rattle.std.specs.Prelude.{◌≡◌};
ghost use Rattle.must_levels.specs.declared.fault.RunFault.TheVariants.{NoMemory as OutOfMemory};
ghost use Rattle.must_levels.specs.Readers.{fault_at};

use must_base::NoMemory;
use must_format::StreamFault;

/// Why the streams of a run have no report: the lowest rank that stops it and why, or want of memory.
#[derive(Clone, Copy, Debug, PartialEq, Eq)]
pub enum RunFault {
    /// The fault is never want of memory.
    Stream { rank: u32, fault: StreamFault },
    NoMemory,
}

impl RunFault {
    /// The fault of a run, by the fault of a rank's stream.
    pub fn at(rank: u32, fault: StreamFault) -> RunFault
        ensures { result ≡ fault_at rank fault }
    {
        match fault {
            StreamFault::NoMemory => RunFault::NoMemory,
            _ => RunFault::Stream { rank, fault },
        }
    }
}

impl From<NoMemory> for RunFault {
    ghost from_gives = { λ _ e. e ≡ OutOfMemory };

    fn from(_: NoMemory) -> RunFault {
        RunFault::NoMemory
    }
}
