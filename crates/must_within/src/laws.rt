//! A law of the run. The call does nothing; its contract is a fact about all runs.

ghost use Rattle.std.specs.Prelude.{◌<◌, ◌≤◌, ℕ};
ghost use Rattle.must_drill.specs.Calls.{calls_of};
ghost use Rattle.must_drill.specs.Streams.{stream_of};
ghost use Rattle.must_rules.specs.Streams.{Accepted};

use must_drill::accepted_run;

/// The stream of each rank is accepted, with exactly its calls: they reach no limit of what is kept of a rank either.
pub fn generated_runs_are_accepted()
    ensures { (ranks rounds number rank : ℕ) → rank < ranks → ranks ≤ 1024 → rounds ≤ 1000
        → Accepted rank ranks (stream_of ranks rounds number rank) (calls_of ranks rounds number rank) }
{
    accepted_run();
}
