//! The streams of all ranks.

ghost use Rattle.std.specs.Prelude.{◌≡◌, ◌≤◌, IfOk, map};
ghost use Rattle.must_drill.specs.Streams.{streams_of};

use crate::stream::stream;
use must_base::NoMemory;
use std::alloc::Global;
use std::marker::Model;

/// The streams of a run, seen as their list in order of rank.
#[derive(Drop)]
pub struct StreamSet {
    streams: Vec<Vec<u8>>,
}

impl Model for StreamSet {
    ghost use Rattle.std.specs.Prelude.{ℕ, List, map};

    ghost Value = { List (List ℕ) };

    ghost view = { λ s. map (λ v. v.items) s.streams.items };
}

impl StreamSet {
    /// The streams in order of rank. It takes no memory.
    pub fn into_list(self) -> Vec<Vec<u8>>
        ensures { map (λ v. v.items) result.items ≡ self }
    {
        let StreamSet { streams } = self;
        streams
    }
}

/// The streams of the run of 1 to 1024 ranks with at most 1000 rounds that this number gives (docs/DRILL.md).
///
/// Time and memory are linear in the bytes of the streams.
///
/// # Errors
///
/// `NoMemory` where memory lacks.
pub fn drill(alloc: Global, ranks: u32, rounds: u32, number: u64) -> Result<StreamSet, NoMemory>
    requires ranks { (1 ≤ ranks) × (ranks ≤ 1024) }
    requires rounds { rounds ≤ 1000 }
    ensures { IfOk result (λ streams. streams ≡ streams_of ranks rounds number) }
{
    let mut streams = Vec::new(alloc);
    for rank in 0..ranks {
        streams.push(stream(alloc, ranks, rounds, number, rank)?)?;
    }
    Ok(StreamSet { streams })
}
