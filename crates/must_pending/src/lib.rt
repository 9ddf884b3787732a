//! The operations of a rank that are pending, and the first of them that a message clashes with (MPI 3.1, 3.7; docs/SPANS.md).
//!
//! Contracts see one list, in the order of the starts. It is kept in groups of operations that were started one behind
//! another, each with what its operations have in common: the addresses around them all, whether one writes, and the
//! least and the greatest of their requests. A group that can't clash, or can't have a request, is passed by.
//!
//! # Cost
//!
//! A group takes as many operations as there are groups, 64 at least. So where buffers lie in the order of their starts
//! and operations end about in that order, `clash` and `finish` take time for the square root of the operations that are
//! held; `start` takes time for one. Where buffers lie anyhow, `clash` compares the ends of each operation that is held.
//! All but `new` and `start` take no memory.
#![tactic(auto)]

mod access;
mod first;
mod group;
mod held;
mod pending;
mod placed;
#[cfg(test)]
mod tests;

pub use access::Access;
pub use pending::Pending;
