//! Rows in the making. Calls that wait for one wave alone share the list of its calls, so memory is in proportion to the calls.

ghost use Rattle.std.specs.Prelude.{◌≡◌, ◌∷◌, [], ℕ, Bool, List, Some, length, replicate, slice_get, slice_set, ◌++◌, ◌<◌, ◌^◌, OnOk, IfOk, IfSome};
ghost use Rattle.must_wait.specs.Needs.{calls_of};
ghost use Rattle.must_node.specs.declared.fact.Fact.{Fact};
ghost use Rattle.must_node.specs.Partners.{wave_places};
ghost use Rattle.must_node.specs.RunNeeds.{way_places, call_needs};
ghost use Rattle.must_node.specs.Indexed.{Stands};
ghost use Rattle.must_node.specs.Sharing.{AreShared, Grows, IsWay, AreWays};

use crate::index::Index;
use crate::keys::{Call, WaveKey};
use must_base::NoMemory;
use must_entry::{Want, Way};
use must_wait::{Places, SharedRows};
use std::alloc::Global;
use std::collections::BTreeMap;

/// Rows, and for each wave that a call waits for alone the number of the list of its calls.
#[derive(Drop)]
pub(crate) struct Sharing {
    pub rows: SharedRows,
    pub waves: BTreeMap<WaveKey, u32>,
}

impl Sharing {
    /// Rows of so many ranks without calls, and no lists.
    pub(crate) fn new(alloc: Global, size: u32) -> Result<Sharing, NoMemory>
        ensures needs { IfOk result (λ sharing. sharing.rows.needs ≡ replicate size []) }
        ensures shared { (facts : List Fact) → IfOk result (λ sharing. AreShared sharing facts) }
    {
        Ok(Sharing {
            rows: SharedRows::new(alloc, size)?,
            waves: BTreeMap::new(alloc),
        })
    }

    /// The number of the list of a call's wave, which is kept where it isn't yet.
    fn wave_list(&mut self, alloc: Global, index: &Index, call: &Call) -> Result<u32, NoMemory>
        ensures shared { (facts : List Fact) → Stands index.now facts → AreShared self.old facts → OnOk result (AreShared self.new facts) }
        ensures list { (facts : List Fact) → Stands index.now facts → AreShared self.old facts → IfOk result (λ number. slice_get self.new.rows.lists number ≡ Some (wave_places facts (Some call.now))) }
        ensures grows { OnOk result (Grows self.old self.new) }
    {
        let wave = call.wave()?;
        if let Some(number) = self.waves.get(&wave) {
            return Ok(*number);
        }
        let places = index.wave_places(alloc, call)?;
        let number = self.rows.share(Places::from_vec(places))?;
        self.waves.insert(wave, number)?;
        Ok(number)
    }

    /// An alternative.
    fn way_of(
        &mut self,
        alloc: Global,
        index: &Index,
        strict: bool,
        way: &[Want],
    ) -> Result<must_wait::Way, NoMemory>
        ensures shared { (facts : List Fact) → Stands index.now facts → AreShared self.old facts → OnOk result (AreShared self.new facts) }
        ensures way { (facts : List Fact) → Stands index.now facts → AreShared self.old facts → IfOk result (λ made. IsWay self.new.rows.lists made (way_places strict facts way.now)) }
        ensures grows { OnOk result (Grows self.old self.new) }
    {
        match index.lone_wave(way) {
            Some(call) => {
                let number = self.wave_list(alloc, index, call)?;
                Ok(must_wait::Way::Shared(number))
            }
            None => {
                let places = index.way_places(alloc, strict, way)?;
                Ok(must_wait::Way::Own(Places::from_vec(places)))
            }
        }
    }

    /// The alternatives of a call.
    fn ways_of(
        &mut self,
        alloc: Global,
        index: &Index,
        strict: bool,
        ways: &[Way],
    ) -> Result<Vec<must_wait::Way>, NoMemory>
        ensures shared { (facts : List Fact) → Stands index.now facts → AreShared self.old facts → OnOk result (AreShared self.new facts) }
        ensures ways { (facts : List Fact) → Stands index.now facts → AreShared self.old facts → IfOk result (λ made. AreWays self.new.rows.lists made.items (call_needs strict facts ways.now)) }
        ensures grows { OnOk result (Grows self.old self.new) }
    {
        let mut made = Vec::with_capacity(alloc, ways.len())?;
        for way in ways {
            made.push(self.way_of(alloc, index, strict, way.items())?)?;
        }
        Ok(made)
    }

    /// Appends the next call of a rank, with these alternatives.
    pub(crate) fn push_call(
        &mut self,
        alloc: Global,
        index: &Index,
        strict: bool,
        rank: u32,
        ways: &[Way],
    ) -> Result<(), NoMemory>
        requires rank { rank < length self.old.rows.needs }
        requires calls { length (calls_of self.old.rows.needs rank) < 2 ^ 31 }
        ensures shared { (facts : List Fact) → Stands index.now facts → AreShared self.old facts → OnOk result (AreShared self.new facts) }
        ensures needs { (facts : List Fact) → Stands index.now facts → AreShared self.old facts → OnOk result (self.new.rows.needs ≡ slice_set self.old.rows.needs rank (calls_of self.old.rows.needs rank ++ call_needs strict facts ways.now ∷ [])) }
    {
        let made = self.ways_of(alloc, index, strict, ways)?;
        if !self.rows.has_lists(&made) {
            return Err(NoMemory);
        }
        self.rows.push(rank, made)?;
        Ok(())
    }
}
