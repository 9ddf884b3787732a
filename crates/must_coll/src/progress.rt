//! The waves of one name.

ghost use Rattle.std.specs.Prelude.{◌≡◌, ◌⊎◌, ◌++◌, ◌∷◌, [], List, IfOk, OnOk, Some, None, map, ◌&&◌, ℕ, true, false, nat_eq, slice_get, IfSome};
ghost use Rattle.std.specs.List.{IsDistinct};
ghost use Rattle.must_find.specs.declared.finding.Finding.{Finding};
ghost use Rattle.must_find.specs.Adds.{Adds};
ghost use Rattle.must_coll.specs.declared.item.WaveItem.{WaveItem};
ghost use Rattle.must_coll.specs.Waves.{all_places, has_gap, present};
ghost use Rattle.must_coll.specs.Rows.{one_kind_of, IsRowOf, IsRowIn};
ghost use Rattle.must_coll.specs.Fronts.{fronts, joined_at, without_whole};
ghost use Rattle.must_coll.specs.Progressing.{clean_after};

use crate::item::{WaveFact, WaveItem};
use crate::judge::{places_of, report_wave};
use crate::lanes::Lanes;
use must_base::NoMemory;
use must_find::Findings;
use must_group::CommName;
use std::alloc::Global;

/// The calls of each member of a communicator that wait for their wave, and whether all whole waves so far had one kind.
#[derive(Drop)]
pub(crate) struct Progress {
    name: CommName,
    clean: bool,
    lanes: Lanes,
}

/// The rows of a whole wave, and whether it and all before are of one kind.
fn settle_wave(
    alloc: Global,
    clean: bool,
    calls: &[WaveItem],
    out: &mut Findings,
) -> Result<bool, NoMemory>
    ensures rows { OnOk result (Adds out.old out.new (λ f. (clean ≡ true) × IsRowOf None calls.now f)) }
    ensures clean { IfOk result (λ b. b ≡ (clean && one_kind_of calls.now)) }
{
    if !clean {
        return Ok(false);
    }
    report_wave(alloc, None, calls, out)
}

/// Where the rank stands among the members of the communicator.
pub(crate) fn place_of(name: &CommName, rank: u32) -> Option<usize>
    ensures found { IfSome result (λ p. slice_get name.now.members p ≡ Some rank) }
    ensures none { (k : ℕ) → result ≡ None → slice_get name.now.members k ≡ Some rank → ⊥ }
    ensures distinct { IsDistinct nat_eq name.now.members }
{
    let _ = name.members().ranks();
    let position = name.members().position(rank)?;
    Some(position as usize)
}

impl Progress {
    /// No calls yet.
    pub(crate) fn new(alloc: Global, name: CommName) -> Result<Progress, NoMemory>
        ensures name { IfOk result (λ p. p.name ≡ name) }
        ensures clean { IfOk result (λ p. p.clean ≡ true) }
        ensures lanes { IfOk result (λ p. p.lanes ≡ map (λ m. []) name.members) }
    {
        let lanes = Lanes::new(alloc, name.members().ranks())?;
        Ok(Progress {
            name,
            clean: true,
            lanes,
        })
    }

    /// A call of the member at this position: the places of the wave that it makes whole.
    pub(crate) fn advance(
        &mut self,
        alloc: Global,
        position: usize,
        item: WaveItem,
        out: &mut Findings,
    ) -> Result<Option<WaveFact>, NoMemory>
        ensures found { IfOk result (λ o. o ≡ all_places (fronts (joined_at self.old.lanes position item))) }
        ensures rows { OnOk result (Adds out.old out.new (λ f. (has_gap (fronts (joined_at self.old.lanes position item)) ≡ false) × ((self.old.clean ≡ true) × IsRowIn self.old.name.members (fronts (joined_at self.old.lanes position item)) f))) }
        ensures lanes { OnOk result (self.new.lanes ≡ without_whole (joined_at self.old.lanes position item)) }
        ensures clean { OnOk result (self.new.clean ≡ clean_after self.old.clean (fronts (joined_at self.old.lanes position item))) }
        ensures name { self.new.name ≡ self.old.name }
    {
        self.lanes.push(position, item)?;
        if !self.lanes.is_whole() {
            return Ok(None);
        }
        let calls = self.lanes.take_wave(alloc)?;
        self.clean = settle_wave(alloc, self.clean, &calls, out)?;
        let places = places_of(alloc, &calls)?;
        Ok(Some(WaveFact::from_vec(places)))
    }

    /// Adds the rows of the wave that waits, where all before it were of one kind.
    pub(crate) fn report_open(self, alloc: Global, out: &mut Findings) -> Result<(), NoMemory>
        ensures { OnOk result (Adds out.old out.new (λ f. (self.clean ≡ true) × IsRowIn self.name.members (fronts self.lanes) f)) }
    {
        if !self.clean {
            return Ok(());
        }
        let Progress {
            name,
            clean: _,
            mut lanes,
        } = self;
        let missing = lanes.missing(name.members().ranks());
        let calls = lanes.take_wave(alloc)?;
        report_wave(alloc, missing, &calls, out)?;
        Ok(())
    }
}
