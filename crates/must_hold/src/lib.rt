//! The operations of a rank, held back until they are settled: its message items in their order, what each operation needs, and rules
//! S1 at completions and N1 at the end (docs/MESSAGES.md, "Held back" and "Needs").
//!
//! A call takes time for the logarithm of what is held, for each operation that it begins, each request that it completes, frees or
//! cancels, and each item that it gives; one that has none of these takes constant time. Memory is in proportion to the operations
//! that are held back, and 16 bytes for each operation of the rank, since what it needs is kept till the calls end.
#![tactic(auto)]

mod completed;
mod held;
mod item;
mod judge;
mod messages;
mod need;
mod table;
mod take;
#[cfg(test)]
mod tests;

pub use held::Need;
pub use messages::Messages;
