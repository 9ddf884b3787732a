//! What the calls of a rank wait for.

ghost use Rattle.std.specs.Prelude.{◌≡◌, ◌++◌, ◌∷◌, [], List, length, map, IfOk, OnOk};
ghost use Rattle.must_call.specs.declared.call.Call.{Call};
ghost use Rattle.must_rules.specs.Rank.{Rank};
ghost use Rattle.must_rules.specs.Clear.{is_clear};
ghost use Rattle.must_rules.specs.Numbered.{AreNumbered};
ghost use Rattle.must_rules.specs.Operations.{operations_at, operations_of};
ghost use Rattle.must_parts.specs.Telling.{Sees};
ghost use Rattle.must_messages.specs.CallNeeds.{operation_need};
ghost use Rattle.must_hold.specs.Ended.{need_seen};
ghost use Rattle.must_hold.specs.Keeping.{Keeps};
ghost use Rattle.must_needs.specs.Naming.{Tells, GivesNeeds};

use crate::names::Ways;
use crate::tell::push_needs;
use crate::waits::{Next, put_started, ways_at};
use must_args::View;
use must_base::NoMemory;
use must_begin::waits_for_wave;
use must_call::{Call, Place};
use must_derived::Datatypes;
use must_entry::Entry;
use must_hold::{Messages, Need};
use std::alloc::Global;
use std::collections::BTreeSet;

/// What the calls of a rank wait for, by names.
#[derive(Drop)]
pub struct Needs {
    /// The alternatives of each call, in order.
    calls: Vec<Ways>,
    /// The nonblocking collective calls that wait for their waves.
    started: BTreeSet<u32>,
}

impl Needs {
    /// Those before the first call. It takes no memory.
    pub fn new(alloc: Global) -> Result<Needs, NoMemory>
        ensures { IfOk result (λ needs. (r : Rank) → Tells r [] needs) }
    {
        Ok(Needs {
            calls: Vec::new(alloc),
            started: BTreeSet::new(alloc),
        })
    }

    /// Takes the next call, which begins this number of operations, before `messages` takes it; `clear` says whether it is. After
    /// an error this is only to be dropped.
    pub fn step<V: View>(
        &mut self,
        alloc: Global,
        view: &V,
        types: &Datatypes,
        messages: &Messages,
        at: Place,
        call: &Call,
        clear: bool,
        begun: usize,
    ) -> Result<(), NoMemory>
        requires clear { clear ≡ is_clear (V.facts view.now) call.now.body }
        ensures { OnOk result ((r : Rank) (calls : List Call) → r.rank ≡ at.rank → length calls ≡ at.call → AreNumbered 64 (calls ++ call.now ∷ []) → Sees r calls (V.facts view.now) (V.sound view.now) (V.starts view.now) types.now → Keeps r calls messages.now → begun ≡ length (operations_at r calls call.now)
            → Tells r calls self.old → Tells r (calls ++ call.now ∷ []) self.new) }
    {
        let next = Next {
            number: at.call,
            clear,
            begun,
            waits: waits_for_wave(view, types, call, clear),
        };
        let ways = ways_at(alloc, view, messages, &self.started, call, next)?;
        self.calls.push(ways)?;
        put_started(&mut self.started, &call.body, next)?;
        Ok(())
    }

    /// Ends the calls: puts the need of each behind `entries`, in order. `needs` are those of the operations, in order.
    pub fn finish(self, rank: u32, needs: &[Need], entries: &mut Vec<Entry>) -> Result<(), NoMemory>
        ensures { OnOk result ((r : Rank) (calls : List Call) → r.rank ≡ rank → Tells r calls self → map (need_seen rank) needs.now ≡ map (operation_need r calls) (operations_of r calls) → GivesNeeds r calls entries.old.items entries.new.items) }
    {
        let Needs { calls, started: _ } = self;
        push_needs(rank, needs, &calls, entries)
    }
}
