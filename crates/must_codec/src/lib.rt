//! Streams of recorded calls: reading and judging them (docs/FORMAT.md).
//!
//! `StreamReader` gives the calls of a stream in order, and then its end or its first bad place. It holds one buffer, of the
//! length of the longest record, and the sums of the calls that it gave; each byte of the source goes through the buffer once,
//! and each call takes time linear in its record. The records themselves are of `must_record`, whose calls stand here too.
#![tactic(auto)]

mod arrival;
mod header;
mod laws;
mod step;
mod stream;
#[cfg(test)]
mod tests;
mod window;

pub use laws::{complete_streams, one_reading, refused_streams};
pub use must_format::{Cause, Expect, Header, Limit, StreamFault};
pub use must_record::{CallView, Step, fits, known_kinds, one_spelling, read_record, write_record};
pub use stream::StreamReader;
