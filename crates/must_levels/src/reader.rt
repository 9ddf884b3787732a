//! How a tree reads its batches.

use must_base::NoMemory;
use must_entry::Batch;
use must_format::StreamFault;
use std::alloc::Global;

/// How the batches of a rank are read from its part. What is said of a part is said of how it was at first and how it is now.
pub trait RankReader<S>: Drop {
    ghost use Rattle.std.specs.Prelude.{◌<◌, ◌≤◌, ℕ, List, [], IfOk};
    ghost use Rattle.must_entry.specs.declared.batch.Batch.{Batch};
    ghost use Rattle.must_entry.specs.Lawful.{IsLawful};
    ghost use Rattle.must_format.specs.declared.fault.StreamFault.{StreamFault};
    ghost use Rattle.must_levels.specs.Readers.{Gives, one_rank};

    /// A part that wasn't read yet.
    ghost ready: { S → Type 0 };

    /// The reader gave these batches of the rank so far, of so many ranks.
    ghost gave: { (size rank : ℕ) → (first now : S) → Self → List Batch → Type 0 };

    /// These are all batches of the rank, and they were given.
    ghost whole: { (size rank : ℕ) → (first now : S) → List Batch → Type 0 };

    /// The rank stops with this fault, which is never want of memory.
    ghost failed: { (size rank : ℕ) → (first now : S) → StreamFault → Type 0 };

    /// What holds of a part however far it was read.
    ghost since: { (first now : S) → Type 0 };

    /// The reader of a rank, which read nothing yet.
    fn new(alloc: Global, rank: u32, size: u32) -> Result<Self, NoMemory>
        requires within { (rank < size) × (size ≤ 1024) }
        ensures { IfOk result (λ reader. (first : S) → ready first → gave size rank first first reader []) };

    /// The next batch, none at the end. After none and after `Err` it isn't called again.
    fn next(&mut self, alloc: Global, part: &mut S) -> Result<Option<Batch>, StreamFault>
        ensures gives { (size rank : ℕ) (first : S) (given : List Batch) → gave size rank first part.old self.old given → Gives gave whole failed size rank first part.new self.new given result }
        ensures since { (size rank : ℕ) (first : S) (given : List Batch) → gave size rank first part.old self.old given → since first part.new };

    /// What was given is lawful for the rank.
    ghost lawful: { (size rank : ℕ) (first now : S) (reader : Self) (given : List Batch) → gave size rank first now reader given → IsLawful (one_rank rank) given };

    /// A part that wasn't read is as it was.
    ghost untouched: { (first : S) → ready first → since first first };
}
