//! What the calls of a rank give to the matching of messages and to the replay.

ghost use Rattle.std.specs.Prelude.{◌≡◌, ◌++◌, ◌∷◌, [], List, length, IfOk, OnOk};
ghost use Rattle.must_call.specs.declared.call.Call.{Call};
ghost use Rattle.must_find.specs.Adds.{Adds};
ghost use Rattle.must_find.specs.declared.rule.Rule.TheVariants.{S1};
ghost use Rattle.must_rules.specs.Answer.{at_part};
ghost use Rattle.must_rules.specs.Rank.{Rank};
ghost use Rattle.must_rules.specs.Clear.{is_clear};
ghost use Rattle.must_rules.specs.Numbered.{AreNumbered};
ghost use Rattle.must_rules.specs.UsableParts.{usable_parts};
ghost use Rattle.must_rules.specs.Statuses.{status_contradicts};
ghost use Rattle.must_begin.specs.Telling.{IsOn};
ghost use Rattle.must_hold.specs.Keeping.{GivesMore, IsOpenWildcard};
ghost use Rattle.must_local.specs.Adding.{IsOfRule, own_answer};
ghost use Rattle.must_local.specs.HandlesKnown.{facts_in, sound_in, HandlesStand};
ghost use Rattle.must_local.specs.TrafficStands.{TrafficStands, GivesEnd};

use crate::derived::comm_named;
use crate::handles::Handles;
use crate::rows::add_answer;
use must_args::Usable;
use must_base::NoMemory;
use must_begin::{Named, Requests, own_contradiction, own_part};
use must_call::{Body, Call, Place};
use must_entry::Entry;
use must_find::{Findings, Rule};
use must_hold::Messages;
use must_messages::Begun;
use must_needs::Needs;
use std::alloc::Global;

/// What a rank's persistent requests ask for, its messages that can't be given yet, and what its calls wait for.
#[derive(Drop)]
pub struct Traffic {
    requests: Requests,
    messages: Messages,
    needs: Needs,
}

/// The communicator that a call names, which is live and has a name.
fn named_by<'a>(handles: &'a Handles, body: &Body) -> Option<Named<'a>>
    ensures { (r : Rank) (calls : List Call) → HandlesStand r handles.now calls → IsOn r calls body.now result }
{
    match comm_named(body) {
        Some(comm) => handles.named(comm),
        None => None,
    }
}

/// How many operations a call begins.
fn count_of(begun: &[Begun]) -> usize
    ensures { result ≡ length begun.now }
{
    begun.len()
}

/// Adds the row of a status that contradicts what its own call asks for.
fn add_own(rows: &mut Findings, at: Place, part: u32, value: Option<i32>) -> Result<(), NoMemory>
    ensures { OnOk result (Adds rows.old rows.new (IsOfRule at.rank at.call S1 (at_part part (own_answer value)))) }
{
    match value {
        Some(value) => add_answer(rows, at, Rule::S1, part, Some((None, i128::from(value)))),
        None => Ok(()),
    }
}

impl Traffic {
    /// That of a rank before its first call.
    pub fn new(alloc: Global, rank: u32, tag_ub: i32) -> Result<Traffic, NoMemory>
        ensures { IfOk result (λ traffic. (r : Rank) → r.rank ≡ rank → r.tag_ub ≡ tag_ub → TrafficStands r [] traffic) }
    {
        let messages = Messages::new(alloc, rank, tag_ub)?;
        let needs = Needs::new(alloc)?;
        let requests = Requests::new(alloc);
        Ok(Traffic {
            requests,
            messages,
            needs,
        })
    }

    /// Takes the next call, puts the messages that can be given now behind `entries`, and adds the call's rows of S1.
    /// `usable` is what its arguments leave for other rules.
    pub fn step(
        &mut self,
        alloc: Global,
        handles: &Handles,
        at: Place,
        call: &Call,
        usable: &Usable,
        entries: &mut Vec<Entry>,
        rows: &mut Findings,
    ) -> Result<(), NoMemory>
        requires clear { usable.now.clear ≡ is_clear (facts_in handles.now) call.now.body }
        requires parts { usable.now.parts ≡ usable_parts (facts_in handles.now) (sound_in handles.now) call.now.body }
        ensures rows { OnOk result ((r : Rank) (calls : List Call) → r.rank ≡ at.rank → length calls ≡ at.call → HandlesStand r handles.now calls → AreNumbered 64 (calls ++ call.now ∷ []) → TrafficStands r calls self.old → Adds rows.old rows.new (IsOfRule at.rank at.call S1 (status_contradicts r calls call.now))) }
        ensures stands { OnOk result ((r : Rank) (calls : List Call) → r.rank ≡ at.rank → length calls ≡ at.call → HandlesStand r handles.now calls → AreNumbered 64 (calls ++ call.now ∷ []) → TrafficStands r calls self.old → TrafficStands r (calls ++ call.now ∷ []) self.new) }
        ensures gives { OnOk result ((r : Rank) (calls : List Call) → r.rank ≡ at.rank → length calls ≡ at.call → HandlesStand r handles.now calls → AreNumbered 64 (calls ++ call.now ∷ []) → TrafficStands r calls self.old
            → GivesMore r calls (calls ++ call.now ∷ []) entries.old.items entries.new.items) }
    {
        let on = named_by(handles, &call.body);
        let types = &handles.types;
        let begun = self
            .requests
            .begins(alloc, handles, types, on, at, call, usable)?;
        let own = own_contradiction(alloc, handles, types, on, call, usable)?;
        let count = count_of(&begun);
        let clear = usable.clear;
        self.needs.step(
            alloc,
            handles,
            types,
            &self.messages,
            at,
            call,
            clear,
            count,
        )?;
        self.messages.step(alloc, call, begun, entries, rows)?;
        add_own(rows, at, own_part(call), own)?;
        self.requests.take(alloc, handles, types, on, call, usable)?;
        Ok(())
    }

    /// Ends the calls: all messages that are held back, and what each call waits for, are put behind `entries`; the rows of N1 are added
    /// to `rows`.
    pub fn finish(
        self,
        rank: u32,
        entries: &mut Vec<Entry>,
        rows: &mut Findings,
    ) -> Result<(), NoMemory>
        ensures gives { OnOk result ((r : Rank) (calls : List Call) → r.rank ≡ rank → AreNumbered 64 calls → TrafficStands r calls self → GivesEnd r calls entries.old.items entries.new.items) }
        ensures rows { OnOk result ((r : Rank) (calls : List Call) → AreNumbered 64 calls → TrafficStands r calls self → Adds rows.old rows.new (IsOpenWildcard r calls)) }
    {
        let Traffic {
            requests: _,
            messages,
            needs,
        } = self;
        let outcomes = messages.finish(entries, rows)?;
        needs.finish(rank, &outcomes, entries)?;
        Ok(())
    }
}
