//! The handles of a generated run (docs/FORMAT.md, "Constants").

/// The communicator of the ranks of one parity, the first handle that a rank makes.
pub(crate) const HALF: u32 = 64;

/// The type of an int and a char behind it, the second one.
pub(crate) const PAIR: u32 = 65;

/// `MPI_CHAR`.
pub(crate) const CHAR: u32 = 1;

/// `MPI_INT`.
pub(crate) const INT: u32 = 7;

/// `MPI_SUM`.
pub(crate) const SUM: u32 = 3;
