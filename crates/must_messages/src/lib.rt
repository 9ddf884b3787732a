//! What the calls of a rank give to the matching of messages and to the replay: the definitions of its message items and of its
//! needs (docs/MESSAGES.md).
//!
//! The code of this crate is laws about the definitions in specs/; it has no state and takes no memory.
#![tactic(auto)]

mod asked;
mod laws;
mod status;

pub use asked::{Asked, Begun, Deed, Mode};
pub use laws::{
    fates_go_on, messages_in_order, messages_settle, needs_settle, open_wildcards_have_rows,
    requests_are_active, statuses_are_judged,
};
pub use status::contradiction;
