//! Records of recorded calls: judging, reading and writing them (docs/FORMAT.md, "Records").
//!
//! `read_record` judges what stands at the front of some bytes, in one pass over the record and without memory;
//! `CallView::to_call` makes the call of a good record, and `write_record` appends the one spelling of a call that
//! `fits`, each in time linear in the record.
#![tactic(auto)]

mod laws;
mod made;
mod record;
#[cfg(test)]
mod tests;
mod view;
mod writing;

pub use laws::{known_kinds, one_spelling};
pub use must_payload::fits;
pub use record::{Step, read_record};
pub use view::CallView;
pub use writing::write_record;
