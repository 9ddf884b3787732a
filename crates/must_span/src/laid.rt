//! Types that are laid out.

use crate::ranges::AddressRange;

/// The ranges of one element of a type, in any order, and its extent.
#[derive(Drop)]
pub(crate) struct Laid {
    pub ranges: Vec<AddressRange>,
    pub extent: i128,
}
