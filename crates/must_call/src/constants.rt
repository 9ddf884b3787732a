//! Numbers with a meaning of their own, as calls have them (docs/FORMAT.md, "Constants").

/// The peer of a transfer that has no effect, `MPI_PROC_NULL` (MPI 3.1 section 3.11).
pub const PROC_NULL: i32 = -1;

/// A receive or probe takes a message of any source, `MPI_ANY_SOURCE` (MPI 3.1 section 3.2.4).
pub const ANY_SOURCE: i32 = -2;

/// A receive or probe takes a message of any tag, `MPI_ANY_TAG` (MPI 3.1 section 3.2.4).
pub const ANY_TAG: i32 = -1;

/// No color, no index, or no requests to count, `MPI_UNDEFINED`.
pub const UNDEFINED: i32 = -1;

/// The handle that stands for nothing, as `MPI_REQUEST_NULL`.
pub const NULL_HANDLE: u32 = 0;

/// The communicator of all ranks, `MPI_COMM_WORLD`.
pub const COMM_WORLD: u32 = 1;

/// The communicator of the rank alone, `MPI_COMM_SELF`.
pub const COMM_SELF: u32 = 2;

/// The group without ranks, `MPI_GROUP_EMPTY`.
pub const GROUP_EMPTY: u32 = 1;

/// The number of the first handle that a call makes; the next ones count up, over all classes.
pub const FIRST_MADE: u32 = 64;
