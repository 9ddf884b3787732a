//! Waves of collective calls: all members of a communicator call the same collectives in the same order, with roots,
//! operations, amounts, colors and groups that agree (docs/RULES.md, "Waves").
//!
//! # Cost
//!
//! A call takes time logarithmic in the handles and communicators that came, finds its member's lane (logarithmic where the
//! members' ranks rise, else linear), and goes to the end of that lane. A name of N members takes N steps to compare, once for
//! each handle that a rank has for it. Memory is in proportion to the calls that wait, to the members of the communicators that
//! came, and to their handles. Once a wave is whole its calls are judged in one pass for each rule, and leave. Calls of `MPI_Allgather` and
//! `MPI_Alltoall` are compared with two calls at most each; those of `MPI_Allgatherv` and `MPI_Alltoallv` pair by pair, which
//! are as many as the amounts that they name. The group of a call of `MPI_Comm_create` is compared with those of its members,
//! once for calls in a row that give the same.
//!
//! 8,192 waves of 1,024 members take about 3 seconds of processor time and 14 MB where they are put wave by wave; a call that
//! waits takes about 200 bytes (docs/ARCHITECTURE.md).
#![tactic(auto)]

mod agreement;
mod amounts;
mod created;
mod exchange;
mod item;
mod judge;
mod lanes;
mod laws;
mod made;
mod making;
mod names;
mod progress;
#[cfg(test)]
mod tests;
mod uniform;
mod waves;

pub use item::{ColorKey, Oper, SigList, WaveFact, WaveItem};
pub use laws::waves_settle;
pub use waves::Waves;
