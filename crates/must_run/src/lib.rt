//! The rows of a whole run: what the rules of one rank find at each rank, what those of messages and of collective calls find in
//! what all ranks give, and at the calls where ranks are blocked.
//!
//! The code of this crate is laws about the definitions in specs/; it has no state and takes no memory.
#![tactic(auto)]

mod laws;

pub use laws::{items_of_ranks, messages_of_ranks, needs_of_ranks, rows_are_one, waits_are_one};
