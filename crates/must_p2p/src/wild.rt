//! Wildcards of receives.

/// Which wildcards a receive named (MPI 3.1, 3.2.4), and the call of its rank that completed it, which is its own call for a
/// blocking receive that returned. For a receive without a wildcard, and for sends and probes, all is false and none.
#[derive(Clone, Copy, Debug, PartialEq, Eq)]
pub struct Wild {
    pub source: bool,
    pub tag: bool,
    pub done: Option<u32>,
}
