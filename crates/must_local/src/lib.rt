//! The walk over the calls of one rank, which gives the rank's entries in batches: so far the findings of the rules that look
//! at one rank alone, and what collective calls give to their waves.
//!
//! A call is taken in time linear in its fields and in the requests that it completes or starts; the members of a communicator
//! that it makes are copied, and so are those of a group. The first Finalize takes five passes over the handles that were made. Memory
//! is in proportion to these and to the members of communicators and groups, and not to the calls; a name shares its members among copies.
#![tactic(auto)]

mod batch;
mod buffers;
mod comm;
mod derived;
mod fault;
mod groups;
mod handles;
mod known;
mod leaks;
mod members;
mod objects;
mod reductions;
mod rows;
#[cfg(test)]
mod tests;
mod traffic;
mod walk;
#[cfg(test)]
mod wave_tests;
mod waves;

pub use fault::WalkFault;
pub use must_entry::{Batch, Entry, ItemList};
pub use walk::RankWalk;
