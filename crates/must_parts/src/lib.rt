//! The parts of a call: the buffers that it reads or writes, with the addresses of their elements (docs/RULES.md, "Parts" and
//! "Pending operations"); rules T1, T2 and T3, and the limit of the weights that are pending.
//!
//! A part is told by what the fields of the call are for. What the rank knows of its communicators comes by a
//! [`View`](must_args::View), and the types that its handles stand for by [`Datatypes`](must_derived::Datatypes).
//! [`Buffers::take`] takes a call of any kind; the other functions are its steps.
//!
//! # Cost
//!
//! A part takes time for the fields of its call, and laying it out for the weights of its blocks, up to a logarithm: the blocks of
//! a list by member are joined by halves. The weights are judged before anything is laid out. Looking for clashes takes what
//! must_pending's `clash` takes, and ending an operation what its `finish` takes. The part of a persistent request is kept as
//! long as the request lives, and laid out once: each start copies its ranges.
#![tactic(auto)]

mod begin;
mod blocks;
mod buffers;
mod clashes;
mod fault;
mod finish;
mod kept;
mod lay;
mod overlaps;
mod placed;
mod roles;
mod scope;
mod start;
mod take;
mod told;
mod weigh;

pub use buffers::Buffers;
pub use fault::BuffersFault;

#[cfg(test)]
mod tests;
