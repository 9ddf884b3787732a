//! The lives of a rank's handles: which call made a handle, which freed or completed it, which types are committed, which
//! requests are persistent and which call started them.
//!
//! Made handles have the numbers from 64 on without a gap, so a table has one slot for each, found by its number. A call is
//! taken in constant time and in one step more for each request that it completes or starts; memory is in proportion to
//! the handles that were made, and not to the calls.
#![tactic(auto)]

mod ending;
mod lives;
mod making;
mod slot;
#[cfg(test)]
mod tests;

pub use lives::Lives;
pub use making::made;
