//! Ranges of ranks.

/// The ranks from `from` to one less than `to`.
#[derive(Clone, Copy, Debug, PartialEq, Eq)]
pub struct RankRange {
    pub from: u32,
    pub to: u32,
}
