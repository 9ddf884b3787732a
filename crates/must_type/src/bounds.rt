//! The bounds of a type.

/// The size and the bounds of a type, in bytes (MPI 3.1, 4.1.6 and 4.1.7). `extent` is `ub - lb`.
#[derive(Clone, Copy, Debug, PartialEq, Eq)]
pub struct Bounds {
    pub size: i128,
    pub lb: i128,
    pub ub: i128,
    pub extent: i128,
}
