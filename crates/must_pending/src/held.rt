//! An operation that is pending.

use crate::access::Access;
use must_span::Spans;

/// An operation that is pending: the call that began it, its request, what it does with its buffer, the buffer's
/// addresses, and its weight.
#[derive(Drop)]
pub(crate) struct Held {
    pub(crate) call: u32,
    pub(crate) request: u32,
    pub(crate) access: Access,
    pub(crate) spans: Spans,
    pub(crate) weight: u64,
}
