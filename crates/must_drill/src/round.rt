//! What is different from round to round.

/// A round as one rank has it.
#[derive(Clone, Copy)]
pub(crate) struct Round {
    /// The rank to the left.
    pub left: u16,
    /// The rank to the right.
    pub right: u16,
    /// How many items are received, and sent to the left.
    pub count: u16,
    /// How many items are sent to the right.
    pub sent: u16,
    /// The first of its four requests.
    pub first: u32,
}
