//! Limits of the format (docs/FORMAT.md, "Limits").

/// The most ranks of a run.
pub const MOST_RANKS: u32 = 1024;

/// The most bytes of all streams of a run; each of n ranks has the n-th part.
pub const RUN_BYTES: u32 = 536_870_912;

/// The most calls of all streams of a run; each of n ranks has the n-th part.
pub const RUN_CALLS: u32 = 8_388_608;

/// The most bytes of the payload of one record.
pub const MOST_PAYLOAD: u32 = 1_048_576;

/// The greatest tag that each MPI library grants (MPI 3.1 section 8.1.2).
pub const LEAST_TAG_UB: i32 = 32_767;
