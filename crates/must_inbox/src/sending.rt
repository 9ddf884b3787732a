//! What goes through an inbox may go between threads.

use crate::inbox::{Inbox, Port, Taker};
use must_entry::Batch;

// Asks that values of a type may go to another thread.
fn asks_send<T: Send>() {}

// Asks that threads may share a value of a type.
fn asks_sync<T: Sync>() {}

/// A batch may go to another thread, and so may a port and a taker; an inbox may be shared. It does nothing: that it is proved says
/// so.
pub fn batches_go_between_threads() {
    asks_send::<Batch>();
    asks_send::<Port>();
    asks_send::<Taker>();
    asks_send::<Inbox>();
    asks_sync::<Inbox>();
}
