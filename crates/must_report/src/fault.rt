//! Why a report wasn't written.

ghost use Rattle.std.specs.Prelude.{◌≡◌};
ghost use Rattle.must_report.specs.declared.fault.OutFault.TheVariants.{NoMemory as OutOfMemory};

use must_base::NoMemory;
use thiserror::Error;

/// Why a report wasn't written.
#[derive(Clone, Copy, Debug, PartialEq, Eq, Error)]
pub enum OutFault {
    /// The sink failed: a front of the report was put.
    #[error("write failed")]
    Write,
    /// There was no memory for the report: nothing was put.
    #[error("out of memory")]
    NoMemory,
}

impl From<NoMemory> for OutFault {
    ghost from_gives = { λ _ e. e ≡ OutOfMemory };

    fn from(_e: NoMemory) -> OutFault {
        OutFault::NoMemory
    }
}
