//! How two signatures compare.

/// How what is sent fits what is received (MPI 3.1, 3.3.1).
#[derive(Clone, Copy, Debug, PartialEq, Eq)]
pub enum Fit {
    /// They are equal as far as what is sent goes; what is received may be longer.
    Fits,
    /// The first place below both lengths where they differ.
    Differs { at: u128 },
    /// They are equal as far as what is received goes, and what is sent is longer; `at` is the length of what is received.
    TooLong { at: u128 },
}
