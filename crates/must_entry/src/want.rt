//! What a call waits for.

use must_call::{Items, Place};

/// One thing that must be reached before a call returns (docs/RULES.md, "Needs").
#[derive(Clone, Copy, Debug, PartialEq, Eq)]
pub enum Want {
    /// The partner of a send, a receive or a probe, which is named by its starting call and its part.
    Op {
        place: Place,
        part: u32,
        /// A send that waits for its receive only where no send is buffered (MPI 3.1, 3.4: the standard and the ready mode).
        standard: bool,
    },
    /// The calls of all members in the wave of a collective call, which is named by where it starts.
    Wave {
        place: Place,
    },
}

/// An alternative: all of these must be reached.
pub type Way = Items<Want>;

/// The alternatives of a call, one of which is enough. Without any the call never returns.
pub type WayList = Items<Way>;
