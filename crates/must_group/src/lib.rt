//! Groups of processes, the groups of a split, and names of communicators (MPI 3.1 sections 6.3 and 6.4).
//!
//! A contract sees a group as the list of its members' world ranks, and each operation as one on lists: a filter, a map, or an
//! order by key. The definitions stand in `specs/`, and [`laws`] tells them in the words of the standard.
//!
//! Costs, where n is the number of members of the groups, or of the rows of a split:
//!
//! - `Group::of` and `Group::ranks` are linear and constant, `union`, `intersection`, `difference` and `excl` take n log n, and
//!   `incl` is linear in the list of ranks.
//! - `Group::position` is logarithmic where the ranks rise, as those of all processes do, and else linear in the group.
//! - `Group::valid_ranks` is linear in the list of ranks where the group has at most 1024 members, as each group of a run has. For
//!   a larger group it is quadratic in the place that it finds. It takes no memory.
//! - `split` takes n log n, and `Groups::of` is logarithmic.
//! - `CommName::start` is constant, and `child` is linear in the path, which has at most 32 steps. `copy` is constant: it shares
//!   path and members. Comparing two names is linear up to their first difference.
#![tactic(auto)]

mod fault;
mod group;
pub mod laws;
mod lookup;
mod name;
mod positions;
mod splits;
#[cfg(test)]
mod tests;

pub use fault::NameFault;
pub use group::Group;
pub use name::{CommName, Step};
pub use splits::{Groups, SplitRow, split};
