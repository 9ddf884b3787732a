//! The payload of a call in bytes: judging it, reading it, appending it, and which calls a record may have (docs/FORMAT.md,
//! "Kinds").
//!
//! Kinds are a line each in the two tables of `tables` and a short function each in `decode`; judging, appending and
//! testing go over the fields of a call, whatever its kind. Each call takes time linear in the payload. Judging takes no
//! memory; `read_payload` takes the payload to be good: bytes that are missing count as zeros there.
#![tactic(auto)]

mod decode;
mod fitting;
mod judging;
mod putting;
mod tables;
#[cfg(test)]
mod tests;

pub use decode::read_payload;
pub use fitting::fits;
pub use judging::{judge_end, judge_payload};
pub use putting::put_payload;
pub use tables::{inputs_of, output_of};
