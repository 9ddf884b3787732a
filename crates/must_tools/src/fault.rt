//! Why a stream has no dump.

use must_format::StreamFault;

/// Why the text of a stream wasn't put.
#[derive(Clone, Copy, Debug, PartialEq, Eq)]
pub enum DumpFault {
    /// The stream isn't complete or exceeds a limit, at its first bad place, or a read of it failed; never
    /// `StreamFault::NoMemory`. Nothing was put.
    Stream(StreamFault),
    /// A put failed. A front of the text was put.
    Write,
    /// There was no memory. Nothing was put.
    NoMemory,
}
