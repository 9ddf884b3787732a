//! The walk over the calls of a rank.

ghost use Rattle.std.specs.Prelude.{◌≡◌, true, ℕ, ◌&&◌, is_none, ◌+◌, ◌<◌, ◌≤◌, ◌^◌, ◌↔◌, List, [], ◌∷◌, ◌++◌, IfOk, IfErr, OnOk, None, length};
ghost use Rattle.must_call.specs.declared.call.Call.{Call};
ghost use Rattle.must_find.specs.declared.finding.Finding.{Finding};
ghost use Rattle.must_base.specs.Listing.{Has, Rises};
ghost use Rattle.must_find.specs.Order.{by_all};
ghost use Rattle.must_call.specs.Handles.{handles_of};
ghost use Rattle.must_rules.specs.Clear.{is_clear};
ghost use Rattle.must_rules.specs.Limits.{limit_at};
ghost use Rattle.must_rules.specs.Communicators.{derived_of};
ghost use Rattle.must_handle.specs.Changes.{IsNext};
ghost use Rattle.must_local.specs.Objects.{HasMembers};
ghost use Rattle.must_local.specs.HandlesKnown.{IsLimitAt, facts_in, sound_in};
ghost use Rattle.must_entry.specs.declared.batch.Batch.{Batch};
ghost use Rattle.must_rules.specs.Search.{or_then, only_if};
ghost use Rattle.must_hold.specs.Keeping.{GivesMore};
ghost use Rattle.must_local.specs.Adding.{LateRows, HasRowsBeside, HasMissing};
ghost use Rattle.must_find.specs.Adds.{Adds};
ghost use Rattle.must_rules.specs.UsableParts.{usable_parts};
ghost use Rattle.must_local.specs.Walks.{rank_by, MayStep, Knows, Walks, GivesAll};

use crate::batch::{with_rows, with_rows_and_wave};
use crate::buffers::take_buffers;
use crate::fault::WalkFault;
use crate::handles::Handles;
use crate::leaks::add_leaks_at;
use crate::members::are_members;
use crate::reductions::add_untaken;
use crate::rows::{add_frames, add_missing, is_finalize_call, is_init_call};
use crate::traffic::Traffic;
use crate::waves::wave_item;
use must_args::{Usable, check_args};
use must_base::NoMemory;
use must_call::{Body, Call, Place};
use must_entry::{Batch, Entry};
use must_find::Findings;
use must_parts::Buffers;
use std::alloc::Global;
use std::marker::Model;

/// A walk over the calls of a rank in order.
#[derive(Drop)]
pub struct RankWalk {
    alloc: Global,
    size: u32,
    number: u32,
    init: Option<u32>,
    finalize: Option<u32>,
    returned: bool,
    handles: Handles,
    buffers: Buffers,
    traffic: Traffic,
}

impl Model for RankWalk {
    ghost use Rattle.must_local.specs.Walks.{WalkState};
    ghost use Rattle.std.specs.Coded.{codes};
    ghost use Rattle.must_type.specs.TreeCode.{tree_code};
    ghost use Rattle.must_local.specs.Codes.{buffers_code, requests_code, messages_code, needs_code};

    ghost Value = { WalkState };

    ghost coded = { Prim.hlevel (codes, tree_code, buffers_code, requests_code, messages_code, needs_code) };

    ghost view = { λ w. record { rank = record { rank = w.handles.rank; size = w.size; tag_ub = w.handles.tag_ub }; number = w.number; init = w.init; finalize = w.finalize; returned = w.returned; handles = w.handles; buffers = w.buffers; traffic = w.traffic } };
}

/// The first of two calls, where the earlier is there.
fn first_of(first: Option<u32>, is_one: bool, call: u32) -> Option<u32>
    ensures { result ≡ or_then first (only_if is_one call) }
{
    match first {
        Some(first) => Some(first),
        None => { if is_one { Some(call) } else { None } }
    }
}

/// Whether a call is the first Finalize.
fn ends_here(is_finalize: bool, first: Option<u32>) -> bool
    ensures { result ≡ (is_finalize && is_none first) }
{
    is_finalize && first.is_none()
}

/// What the rules that look at one rank alone say of a call.
#[derive(Drop)]
struct Judged {
    rows: Findings,
    usable: Usable,
}

/// Whether the communicator that a call makes, if any, has members that it may have.
fn has_members(call: &Call) -> bool
    ensures { result ≡ true → HasMembers (derived_of call.now.body) }
{
    match call.made_comm() {
        Some(made) => are_members(made.members.items()),
        None => true,
    }
}

/// Whether a call names fewer than 2^32 handles. Only calls of these families have lists of handles.
fn names_few(call: &Call) -> bool
    ensures { result ≡ true → length (handles_of call.now.body) < 2 ^ 32 }
{
    match &call.body {
        Body::Finish(_) | Body::Derive(_) | Body::Persist(_) => call.handle(u32::MAX).is_none(),
        _ => true,
    }
}

impl RankWalk {
    /// A walk that has taken no call.
    pub fn new(alloc: Global, rank: u32, size: u32, tag_ub: i32) -> Result<RankWalk, NoMemory>
        ensures walks { IfOk result (λ walk. (version : ℕ) → Walks version walk [] []) }
        ensures rank { IfOk result (λ walk. walk.rank ≡ record { rank = rank; size = size; tag_ub = tag_ub }) }
    {
        let handles = Handles::new(alloc, rank, size, tag_ub)?;
        let buffers = Buffers::new(alloc)?;
        let traffic = Traffic::new(alloc, rank, tag_ub)?;
        Ok(RankWalk {
            alloc,
            size,
            number: 0,
            init: None,
            finalize: None,
            returned: true,
            handles,
            buffers,
            traffic,
        })
    }

    /// The local rows of the next call but those of its buffers and of its statuses, and what its arguments leave for other rules.
    fn judge(&self, call: &Call) -> Result<Judged, NoMemory>
        requires { length (handles_of call.now.body) < 2 ^ 32 }
        ensures rows { (version : ℕ) (calls : List Call) → Knows version self.now calls → IfOk result (λ judged. HasRowsBeside (rank_by version self.now.rank) calls call.now judged.rows) }
        ensures clear { IfOk result (λ judged. judged.usable.clear ≡ is_clear (facts_in self.now.handles) call.now.body) }
        ensures parts { IfOk result (λ judged. judged.usable.parts ≡ usable_parts (facts_in self.now.handles) (sound_in self.now.handles) call.now.body) }
    {
        let mut rows = Findings::new(self.alloc);
        let at = Place {
            rank: self.handles.rank,
            call: self.number,
        };
        add_frames(&mut rows, at, self.init, self.finalize, call)?;
        let usable = check_args(self.alloc, &self.handles, at, call, &mut rows)?;
        add_untaken(&mut rows, at, &self.handles, call, usable.clear)?;
        let ends = ends_here(is_finalize_call(call), self.finalize);
        add_leaks_at(&mut rows, at, ends, &self.handles.lives)?;
        Ok(Judged { rows, usable })
    }

    /// Takes the next call into the tables, adds the rows of its statuses and of its buffers, and puts the messages that can be given
    /// now behind `entries`. `usable` is what its arguments leave for other rules.
    fn take(
        &mut self,
        call: &Call,
        usable: &Usable,
        entries: &mut Vec<Entry>,
        rows: &mut Findings,
    ) -> Result<(), WalkFault>
        requires next { IsNext self.old.handles.lives call.now }
        requires few { self.old.number + 1 < 2 ^ 32 }
        requires members { HasMembers (derived_of call.now.body) }
        requires clear { usable.now.clear ≡ is_clear (facts_in self.old.handles) call.now.body }
        requires parts { usable.now.parts ≡ usable_parts (facts_in self.old.handles) (sound_in self.old.handles) call.now.body }
        ensures rows { OnOk result ((version : ℕ) (calls : List Call) → Knows version self.old calls → Adds rows.old rows.new (LateRows (rank_by version self.old.rank) calls call.now)) }
        ensures gives { OnOk result ((version : ℕ) (calls : List Call) → Knows version self.old calls → GivesMore (rank_by version self.old.rank) calls (calls ++ call.now ∷ []) entries.old.items entries.new.items) }
        ensures knows { OnOk result ((version : ℕ) (calls : List Call) → Knows version self.old calls → Knows version self.new (calls ++ call.now ∷ [])) }
        ensures rank { OnOk result (self.new.rank ≡ self.old.rank) }
        ensures within { OnOk result ((version : ℕ) (calls : List Call) → Knows version self.old calls → limit_at (rank_by version self.old.rank) calls call.now ≡ None) }
        ensures over { IfErr result (λ fault. (version : ℕ) (calls : List Call) → Knows version self.old calls → IsLimitAt (length calls) (limit_at (rank_by version self.old.rank) calls call.now) fault) }
    {
        let number = self.number;
        let at = Place {
            rank: self.handles.rank,
            call: number,
        };
        self.traffic
            .step(self.alloc, &self.handles, at, call, usable, entries, rows)?;
        let size = self.size;
        take_buffers(
            &mut self.buffers,
            self.alloc,
            &self.handles,
            at,
            size,
            call,
            usable,
            rows,
        )?;
        self.handles.take(self.alloc, number, call, usable.clear)?;
        self.init = first_of(self.init, is_init_call(call), number);
        self.finalize = first_of(self.finalize, is_finalize_call(call), number);
        self.returned = call.returned;
        self.number = number + 1;
        Ok(())
    }

    /// Whether `step` may take this call: the handle that it makes, if any, has the next number; the communicator, at most
    /// 1,024 distinct members below that; it names fewer than 2^32 handles, and fewer than 2^32 - 1 calls were taken.
    pub fn may_step(&self, call: &Call) -> bool
        ensures { result ≡ true → MayStep self.now call.now }
    {
        self.number < u32::MAX
            && self.handles.lives.is_next(call)
            && has_members(call)
            && names_few(call)
    }

    /// Takes the next call, and gives its batch. `TooWide` comes exactly where the call reaches a limit (docs/FORMAT.md, "Limits");
    /// the walk isn't to be used any more then.
    pub fn step(&mut self, call: &Call) -> Result<Batch, WalkFault>
        requires { MayStep self.old call.now }
        ensures walks { IfOk result (λ batch. (version : ℕ) (calls : List Call) (given : List Batch) → Walks version self.old calls given → Walks version self.new (calls ++ call.now ∷ []) (given ++ batch ∷ [])) }
        ensures rank { OnOk result (self.new.rank ≡ self.old.rank) }
        ensures over { IfErr result (λ fault. (version : ℕ) (calls : List Call) (given : List Batch) → Walks version self.old calls given → IsLimitAt (length calls) (limit_at (rank_by version self.old.rank) calls call.now) fault) }
    {
        let Judged { rows, usable } = self.judge(call)?;
        let mut rows = rows;
        let rank = self.handles.rank;
        let at = Place {
            rank,
            call: self.number,
        };
        let wave = wave_item(self.alloc, &self.handles, at, call, usable.clear)?;
        let mut entries = Vec::new(self.alloc);
        self.take(call, &usable, &mut entries, &mut rows)?;
        let entries = with_rows_and_wave(entries, rows.as_slice(), wave)?;
        Ok(Batch {
            rank,
            entries,
            last: false,
        })
    }

    /// The row of a missing Finalize, where there is none.
    fn last_rows(&self) -> Result<Findings, NoMemory>
        ensures { (version : ℕ) (calls : List Call) → Knows version self.now calls → IfOk result (λ rows. HasMissing (rank_by version self.now.rank) calls rows) }
    {
        let mut rows = Findings::new(self.alloc);
        let at = Place {
            rank: self.handles.rank,
            call: self.number,
        };
        add_missing(&mut rows, at, self.returned, self.finalize)?;
        Ok(rows)
    }

    /// Ends the walk, and gives the last batch.
    pub fn finish(self) -> Result<Batch, NoMemory>
        ensures { IfOk result (λ batch. (version : ℕ) (calls : List Call) (given : List Batch) → Walks version self calls given → GivesAll (rank_by version self.rank) calls (given ++ batch ∷ [])) }
    {
        let mut rows = self.last_rows()?;
        let alloc = self.alloc;
        let rank = self.handles.rank;
        let mut entries = Vec::new(alloc);
        let RankWalk {
            alloc: _,
            size: _,
            number: _,
            init: _,
            finalize: _,
            returned: _,
            handles: _,
            buffers: _,
            traffic,
        } = self;
        traffic.finish(rank, &mut entries, &mut rows)?;
        let entries = with_rows(entries, rows.as_slice())?;
        Ok(Batch {
            rank,
            entries,
            last: true,
        })
    }
}
