//! How a run is analysed.

use must_find::RuleSet;

/// How a standard send is taken: it waits for its receive, or it is buffered (MPI 3.1 section 3.4).
#[derive(Clone, Copy, Debug, PartialEq, Eq)]
pub enum Sends {
    Strict,
    Buffered,
}

/// How a run is analysed.
#[derive(Drop)]
pub struct Plan {
    /// How many children a node of a tree has, 2 to 64. An analysis on one thread makes no tree.
    pub fan_in: u8,
    /// How standard sends are taken in the replay.
    pub sends: Sends,
    /// The severity of each rule. Every rule is judged, whatever its severity: the report leaves out those that are off.
    pub rules: RuleSet,
}
