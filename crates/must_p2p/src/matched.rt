//! Matches.

use must_call::Place;

/// A send and a receive that match (MPI 3.1, 3.5): the places of their starting calls, and the parts of these calls.
#[derive(Clone, Copy, Debug, PartialEq, Eq)]
pub struct Matched {
    pub send: Place,
    pub send_part: u32,
    pub recv: Place,
    pub recv_part: u32,
}
