//! Wait states: the replay of a run's calls by what they need, and the deadlock core (docs/WAITING.md).
//!
//! [`laws`] says that the calls that a replay passes are the least set that is closed under progress, which ranks are blocked, and
//! that the core is the greatest set of blocked ranks that is held by itself.
//!
//! [`SharedRows`] are rows whose calls may share lists, so that what a wave waits for is held and gone over once.
//!
//! Costs:
//!
//! - `replay` and `core` take time and memory linear in ranks, calls, alternatives and places held, of which a shared list counts
//!   once: each call is looked at once, and each alternative and shared list goes over each of its places at most twice, and in
//!   `core` once more.
//! - `is_reached` takes time logarithmic in the blocked calls.
//! - `Rows::push` and `SharedRows::share` are constant but for the growth of their lists, `SharedRows::push` is linear in the
//!   alternatives of the call, and `has_lists` too; the other calls are constant.
#![tactic(auto)]

mod blocked;
mod coded;
mod deadlock;
mod dropping;
pub mod laws;
mod lists;
mod progress;
mod rows;
mod shared;
#[cfg(test)]
mod tests;
mod way;
mod worklist;

pub use blocked::{Blocked, is_reached, replay};
pub use deadlock::{RankSet, core};
pub use lists::{Needs, Places};
pub use rows::Rows;
pub use shared::SharedRows;
pub use way::Way;
