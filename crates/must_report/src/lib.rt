//! The report of findings, as text and as CSV.
//!
//! A report is made whole in memory and then put in one piece, so want of memory puts nothing. Both forms take time and
//! memory in proportion to the number of findings.
#![tactic(auto)]

mod csv_text;
mod fault;
mod shown;
mod text;
mod write;

pub use fault::OutFault;
pub use shown::count_shown;
pub use write::{write_csv, write_text};

#[cfg(test)]
mod tests;
