//! Whose stream is expected.

/// Whose stream a reader expects: a rank's, in a run of so many ranks.
#[derive(Clone, Copy, Debug, PartialEq, Eq)]
pub struct Expect {
    /// Below `size`.
    pub rank: u32,
    /// 1 to 1024.
    pub size: u32,
}
