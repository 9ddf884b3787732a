//! Sides of messages.

/// What an item is: a send or a receive (MPI 3.1, 3.2 and 3.7), or a probe (MPI 3.1, 3.8.1).
#[derive(Clone, Copy, Debug, PartialEq, Eq)]
pub enum Side {
    Send,
    Receive,
    Probe,
}
