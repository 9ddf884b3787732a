//! What a rank knows of a handle.

use crate::comm::Comm;
use must_group::Group;

/// What is known of a handle that a call made.
#[derive(Drop)]
pub enum Known {
    /// No more than its life here: it isn't sound, or it is a datatype or a request.
    Nothing,
    /// A sound communicator.
    Comm(Comm),
    /// A sound group.
    Group(Group),
    /// An operation, and whether it commutes.
    Operation(bool),
}
