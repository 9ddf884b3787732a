//! Laws of the run. Each call does nothing; its contract is a fact about all runs.

ghost use Rattle.std.specs.Prelude.{◌≡◌, ◌<◌, ◌≤◌, ℕ, Some, length, slice_get};
ghost use Rattle.must_format.specs.Stream.{whose, Accepted};
ghost use Rattle.must_format.specs.Complete.{IsComplete};
ghost use Rattle.must_drill.specs.Calls.{calls_of};
ghost use Rattle.must_drill.specs.Streams.{stream_of, streams_of};

/// The stream of each rank is complete for its rank, with exactly its calls.
pub fn complete_run()
    ensures { (ranks rounds number rank : ℕ) → rank < ranks → ranks ≤ 1024 → rounds ≤ 1000
        → IsComplete (whose rank ranks) (stream_of ranks rounds number rank) (calls_of ranks rounds number rank) }
{}

/// The stream of each rank is accepted, with exactly its calls: it is within the limits of bytes and calls too.
pub fn accepted_run()
    ensures { (ranks rounds number rank : ℕ) → rank < ranks → ranks ≤ 1024 → rounds ≤ 1000
        → Accepted rank ranks (stream_of ranks rounds number rank) (calls_of ranks rounds number rank) }
{}

/// There is one stream for each rank, at its place.
pub fn streams_in_order()
    ensures count { (ranks rounds number : ℕ) → length (streams_of ranks rounds number) ≡ ranks }
    ensures each { (ranks rounds number rank : ℕ) → rank < ranks → slice_get (streams_of ranks rounds number) rank ≡ Some (stream_of ranks rounds number rank) }
{}
