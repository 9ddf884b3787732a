//! What a call asks of messages, and the operations that it begins.

use must_group::CommName;
use must_sig::Sig;

/// The mode of a send (MPI 3.1, 3.4).
#[derive(Clone, Copy, Debug, PartialEq, Eq)]
pub enum Mode {
    Standard,
    Buffered,
    Synchronous,
    Ready,
}

/// What is done with a message.
#[derive(Clone, Copy, Debug, PartialEq, Eq)]
pub enum Deed {
    Send { mode: Mode },
    Receive,
    Probe,
}

/// A message that a call asks for: its envelope as it was named (MPI 3.1, 3.2.3), and what is sent, or may be received.
#[derive(Drop)]
pub struct Asked {
    pub deed: Deed,
    /// The handle number of the communicator.
    pub comm: u32,
    /// The name that the communicator has there.
    pub name: CommName,
    /// A position in the communicator, or `MPI_ANY_SOURCE`.
    pub peer: i32,
    /// A tag, or `MPI_ANY_TAG`.
    pub tag: i32,
    /// Empty for a probe.
    pub sig: Sig,
}

/// An operation that a call begins.
#[derive(Drop)]
pub struct Begun {
    /// 1 for what is received where the call sends too, the index of its request for what a start begins, else 0.
    pub part: u32,
    /// None where the operation is done in its call, or where that call didn't return and so made no request.
    pub request: Option<u32>,
    pub asked: Asked,
}
