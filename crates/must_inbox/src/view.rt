//! What the passes of an inbox know. No value of these types is made: they exist in proofs alone.

use must_entry::{Batch, RankRange};
use std::collections::LinkedList;

/// What one pass knows.
pub enum View {
    /// The taker: the ranges of the ports that were given, by their numbers; the number and the sent list of each joined child; and
    /// what was taken.
    Taking(LinkedList<RankRange>, LinkedList<(u32, LinkedList<Batch>)>, LinkedList<(u32, Batch)>),
    /// A port: its child's number and range, and what the child sent.
    Sending(u32, RankRange, LinkedList<Batch>),
    /// A port that was joined.
    Spent,
}
