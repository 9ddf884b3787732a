//! Entries that come together.

use crate::entry::Entry;
use must_call::Items;

/// Entries of a rank, in order.
pub type ItemList = Items<Entry>;

/// Entries of one rank that come together.
#[derive(Drop)]
pub struct Batch {
    pub rank: u32,
    pub entries: ItemList,
    /// No other batch of this rank comes.
    pub last: bool,
}
