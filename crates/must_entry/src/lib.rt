//! What a rank contributes to the analysis of a run: its rows, its messages, its collective calls and its needs, in batches.
//!
//! Batches of several ranks may come in any interleaving that is lawful (`specs/Lawful`). The lists here take over the vectors
//! that they are made of and give them back; nothing is copied.
#![tactic(auto)]

mod batch;
mod entry;
mod range;
mod want;

pub use batch::{Batch, ItemList};
pub use entry::Entry;
pub use range::RankRange;
pub use want::{Want, Way, WayList};
