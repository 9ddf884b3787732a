//! The analysis of a run: the findings of the streams of all ranks.
//!
//! The streams are read one after the other, with one open at a time. Time is in proportion to the calls and to what their walks
//! take (must_local); memory to one stream's reader, one rank's handles, and the findings.
#![tactic(auto)]

mod fault;
mod rank;
mod serial;
#[cfg(test)]
mod tests;

pub use fault::RunFault;
pub use serial::analyse_serial;
