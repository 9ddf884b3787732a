//! The operations of a rank, from call to call.

ghost use Rattle.std.specs.Prelude.{◌≡◌, ◌+◌, ◌++◌, ◌∷◌, [], ℕ, List, length, map, slice_get, IfOk, OnOk};
ghost use Rattle.must_call.specs.declared.call.Call.{Call};
ghost use Rattle.must_find.specs.Adds.{Adds};
ghost use Rattle.must_entry.specs.declared.entry.Entry.{Entry};
ghost use Rattle.must_rules.specs.Rank.{Rank};
ghost use Rattle.must_rules.specs.Numbered.{AreNumbered};
ghost use Rattle.must_rules.specs.Operations.{operations_at, operations_of};
ghost use Rattle.must_rules.specs.Statuses.{under_way};
ghost use Rattle.must_messages.specs.CallNeeds.{operation_need};
ghost use Rattle.must_hold.specs.Ended.{need_seen};
ghost use Rattle.std.specs.Option.{option_and_then};
ghost use Rattle.must_messages.specs.Asking.{AreBegun};
ghost use Rattle.must_hold.specs.Taking.{IsCompletedWrongly};
ghost use Rattle.must_hold.specs.Keeping.{Keeps, GivesMore, GivesLast, IsOpenWildcard};

use crate::held::Need;
use crate::need::add_wildcards;
use crate::table::Table;
use crate::take::take_call;
use must_base::NoMemory;
use must_call::{Call, Place};
use must_entry::Entry;
use must_find::Findings;
use must_messages::Begun;
use std::alloc::Global;

/// The number of the call behind this one. `NoMemory` comes where it has none of 32 bits.
fn next_number(number: u32) -> Result<u32, NoMemory>
    ensures { IfOk result (λ next. next ≡ number + 1) }
{
    match number.checked_add(1) {
        Some(next) => Ok(next),
        None => Err(NoMemory),
    }
}

/// The operations of a rank that aren't given yet.
#[derive(Drop)]
pub struct Messages {
    rank: u32,
    tag_ub: i32,
    /// The number of the next call.
    number: u32,
    table: Table,
    /// What each operation so far needs as it stands.
    needs: Vec<Need>,
}

impl Messages {
    /// Nothing yet. It takes no memory.
    pub fn new(alloc: Global, rank: u32, tag_ub: i32) -> Result<Messages, NoMemory>
        ensures { IfOk result (λ m. (r : Rank) → r.rank ≡ rank → r.tag_ub ≡ tag_ub → Keeps r [] m) }
    {
        let table = Table::new(alloc);
        Ok(Messages {
            rank,
            tag_ub,
            number: 0,
            table,
            needs: Vec::new(alloc),
        })
    }

    /// Takes the next call; `begun` are the operations that it begins. What can be given now is put behind `entries`, and the rows
    /// of S1 at its completions are added to `rows`.
    pub fn step(
        &mut self,
        alloc: Global,
        call: &Call,
        begun: Vec<Begun>,
        entries: &mut Vec<Entry>,
        rows: &mut Findings,
    ) -> Result<(), NoMemory>
        ensures keeps { OnOk result ((r : Rank) (calls : List Call) → Keeps r calls self.old → AreNumbered 64 (calls ++ call.now ∷ []) → AreBegun (length calls) begun.items (operations_at r calls call.now) → Keeps r (calls ++ call.now ∷ []) self.new) }
        ensures gives { OnOk result ((r : Rank) (calls : List Call) → Keeps r calls self.old → AreNumbered 64 (calls ++ call.now ∷ []) → AreBegun (length calls) begun.items (operations_at r calls call.now) → GivesMore r calls (calls ++ call.now ∷ []) entries.old.items entries.new.items) }
        ensures rows { OnOk result ((r : Rank) (calls : List Call) → Keeps r calls self.old → AreNumbered 64 (calls ++ call.now ∷ []) → AreBegun (length calls) begun.items (operations_at r calls call.now) → Adds rows.old rows.new (IsCompletedWrongly r calls call.now)) }
    {
        let number = self.number;
        let next = next_number(number)?;
        let at = Place {
            rank: self.rank,
            call: number,
        };
        take_call(
            alloc,
            &mut self.table,
            &mut self.needs,
            at,
            self.tag_ub,
            call,
            begun,
            rows,
        )?;
        self.table.give(entries)?;
        self.number = next;
        Ok(())
    }

    /// How many operations the calls so far began.
    pub fn count(&self) -> u64
        ensures { (r : Rank) (calls : List Call) → Keeps r calls self.now → result ≡ length (operations_of r calls) }
    {
        self.table.count
    }

    /// The number of the operation that is under way for a request.
    pub fn under_way(&self, request: u32) -> Option<u64>
        ensures { (r : Rank) (calls : List Call) → Keeps r calls self.now → AreNumbered 64 calls → option_and_then (λ n. slice_get (operations_of r calls) n) result ≡ under_way r calls request }
    {
        self.table.numbers.get(&request).copied()
    }

    /// Ends the calls: all that is held back is put behind `entries`, as it stands, and the rows of N1 are added to `rows`. Gives what
    /// each operation needs, in order.
    pub fn finish(
        self,
        entries: &mut Vec<Entry>,
        rows: &mut Findings,
    ) -> Result<Vec<Need>, NoMemory>
        ensures gives { OnOk result ((r : Rank) (calls : List Call) → Keeps r calls self → GivesLast r calls entries.old.items entries.new.items) }
        ensures rows { OnOk result ((r : Rank) (calls : List Call) → Keeps r calls self → Adds rows.old rows.new (IsOpenWildcard r calls)) }
        ensures needs { IfOk result (λ needs. (r : Rank) (calls : List Call) → Keeps r calls self → map (need_seen r.rank) needs.items ≡ map (operation_need r calls) (operations_of r calls)) }
    {
        let Messages {
            rank,
            table,
            needs,
            ..
        } = self;
        let mut table = table;
        table.give_rest(rank, entries)?;
        add_wildcards(rank, &needs, rows)?;
        Ok(needs)
    }
}
