//! What a rank gives of a message.

use crate::side::Side;
use crate::wild::Wild;
use must_call::Place;
use must_group::CommName;
use must_sig::Sig;

/// A send, a receive or a probe.
///
/// Items may match that are of one class: of one communicator, source, destination and tag (MPI 3.1, 3.2.2 and 3.2.3).
#[derive(Drop)]
pub struct MsgItem {
    /// The call that starts it.
    pub place: Place,
    /// The part of that call: 1 for the receive of a `Sendrecv`, else 0.
    pub part: u32,
    pub side: Side,
    /// The name of the communicator, by which all ranks tell that it is one communicator.
    pub name: CommName,
    /// The handle number of the communicator at the rank of the item. Items of one rank with equal numbers have equal names,
    /// so names are compared once a rank and number, and not at each item.
    pub comm: u32,
    /// The world rank of the sender.
    pub source: u32,
    /// The world rank of the receiver.
    pub dest: u32,
    pub tag: i32,
    /// What is sent, or what may be received.
    pub sig: Sig,
    pub wild: Wild,
}
