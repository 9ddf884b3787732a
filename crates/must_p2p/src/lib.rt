//! Matching of messages: sends and receives of one class pair up by equal numbers (docs/MATCHING.md; MPI 3.1, 3.5).
//!
//! Ranks give items in their order of calls; the items of several ranks come in any interleaving. Pairs are settled as they
//! arrive, and give the matches and the rows that the items have whatever order they come in.
//!
//! # Cost
//!
//! `put` and `next_number` take time logarithmic in the number of handles and of classes that came, whatever waits: an item
//! that meets its partner takes the first of a queue. A finding of M1 or M2 goes to its place among those that there are. `close`
//! sorts what it adds, and merges it with those. Memory is in proportion to the items that wait, and to the handles, names
//! and classes that came, which keep a few numbers each. A name of N members takes N steps to compare, once for each handle
//! that a rank has for it.
#![tactic(auto)]

mod channels;
mod item;
mod judge;
mod key;
mod laws;
mod matched;
mod names;
mod queue;
mod side;
#[cfg(test)]
mod tests;
mod waiting;
mod wild;

pub use channels::Channels;
pub use item::MsgItem;
pub use laws::{
    classes_settle_apart, messages_in_order, one_partner, order_is_free, rows_add_up,
    rows_are_apart,
};
pub use matched::Matched;
pub use side::Side;
pub use wild::Wild;
