//! The bytes of memory that a message takes, as ranges of addresses (docs/SPANS.md).
//!
//! The bytes of a message are kept as ranges in order with a gap between each and the next, so a set of addresses has one
//! list, and copies that lie side by side are one range. A type is laid out along its tree, an old type once however
//! often it is repeated, and what has no bytes not at all; then all ranges are sorted and merged by one pass.
//!
//! # Cost
//!
//! `Spans::of` takes time and memory for as many ranges as the weight of the message (docs/TYPES.md), up to the sort's
//! logarithm; there are never more, and each takes 32 bytes. `join` and `first_shared` take time for both lists, `bytes`
//! for one. The last two take no memory.
//!
//! What is to be believed stands in specs `Ranges` (sets of addresses) and `Bytes` (the bytes of a message). `Steps` has
//! what the steps of laying out promise one another.
#![tactic(auto)]

mod copies;
#[cfg(test)]
mod flat;
mod forms;
mod laid;
mod lay;
mod parts;
mod places;
mod ranges;
mod spans;
#[cfg(test)]
mod tests;

pub use ranges::AddressRange;
pub use spans::Spans;
