//! Signatures of messages: the basic types that a message is made of, in order (docs/SIGNATURES.md).
//!
//! A signature is kept as runs of one unit and a number of times, and is seen as the list that these expand to, so a
//! message of 2^60 elements takes the memory of one. Two signatures are compared over a stretch that is at most as
//! long as both units together, whatever their lengths.
//!
//! # Cost
//!
//! `Sig::of` takes memory for the runs of one element, and time for these and for the calls that made the type: it
//! walks a call with one old type once, whatever its numbers, and a `Struct` block by block. A caller that keeps the
//! signature of one element of a type has that of each message by `repeated`, which shares the runs and takes constant
//! time, as `copy` does. `len` takes constant time. `compare` and `first_difference` take no memory.
#![tactic(auto)]

mod fit;
mod laws;
mod place;
mod run;
mod runs;
mod sig;
mod steps;
#[cfg(test)]
mod tests;
mod unit;
mod walk;

pub use fit::Fit;
pub use laws::{merged_is_shortest, none_where_equal, periods_agree};
pub use run::Run;
pub use sig::{Sig, compare, first_difference};
pub use steps::Steps;
