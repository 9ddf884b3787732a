//! What the calls of a rank wait for: kept by the names of operations and of waves from call to call, and told when the calls end,
//! since it is known then what becomes of each operation (docs/MESSAGES.md, "Needs").
//!
//! # Cost
//!
//! Each call takes 32 bytes, and 16 more for each operation, wave or active request that it waits for; only a call that waits for one
//! of these allocates beside. A call takes constant time, one that waits for requests takes for each of them the logarithm of what is
//! held, and a collective call takes the time of must_begin's `waits_for_wave`, and the logarithm of the number of nonblocking ones
//! that wait for their waves. The end takes time and memory in proportion to the calls and to what they wait for.
#![tactic(auto)]

mod names;
mod needs;
mod tell;
#[cfg(test)]
mod tests;
mod waits;

pub use needs::Needs;
