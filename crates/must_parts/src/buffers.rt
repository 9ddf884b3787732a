//! The buffers of a rank.

ghost use Rattle.std.specs.Prelude.{◌≡◌, ◌≤◌, ◌++◌, ◌∷◌, [], true, false, List, length, None, IfOk, IfErr, OnOk};
ghost use Rattle.must_call.specs.declared.call.Call.{Call};
ghost use Rattle.must_find.specs.Adds.{Adds};
ghost use Rattle.must_rules.specs.Rank.{Rank};
ghost use Rattle.must_rules.specs.Clear.{is_clear};
ghost use Rattle.must_rules.specs.Making.{is_persistent_kind};
ghost use Rattle.must_rules.specs.UsableParts.{usable_parts};
ghost use Rattle.must_rules.specs.Starts.{is_start_kind};
ghost use Rattle.must_rules.specs.PendingOperations.{pending_limit_at};
ghost use Rattle.must_parts.specs.Telling.{Sees};
ghost use Rattle.must_parts.specs.Rows.{BufferRows, IsPendingLimit};
ghost use Rattle.must_parts.specs.Standing.{Stands};
ghost use Rattle.must_parts.specs.Persistence.{IsPersistence};

use crate::fault::BuffersFault;
use crate::kept::Kept;
use crate::start::take_start;
use crate::take::{take_init, take_plain};
use must_args::{Usable, View};
use must_base::NoMemory;
use must_call::{Body, Call, Persist, Place};
use must_derived::Datatypes;
use must_find::Findings;
use must_pending::Pending;
use std::alloc::Global;

/// The buffers of a rank that later calls may clash with: those of the operations that are pending, and those of its persistent
/// requests (docs/RULES.md, "Pending operations").
#[derive(Drop)]
pub struct Buffers {
    pending: Pending,
    kept: Kept,
}

/// What a call does with persistent requests.
enum Persistence {
    /// It starts some.
    Starts,
    /// It makes one.
    Makes,
    Neither,
}

fn persistence_of(call: &Call) -> Persistence
    ensures { IsPersistence call.now.body result }
{
    match &call.body {
        Body::Persist(Persist::Start { .. } | Persist::Startall { .. }) => Persistence::Starts,
        Body::Persist(_) => Persistence::Makes,
        _ => Persistence::Neither,
    }
}

impl Buffers {
    /// Those before the first call.
    pub fn new(alloc: Global) -> Result<Buffers, NoMemory>
        ensures { IfOk result (λ buffers. (r : Rank) → Stands r [] buffers) }
    {
        Ok(Buffers {
            pending: Pending::new(alloc)?,
            kept: Kept::new(alloc),
        })
    }

    /// A call that does nothing with persistent requests.
    fn take_plain<V: View>(
        &mut self,
        alloc: Global,
        view: &V,
        types: &Datatypes,
        at: Place,
        size: u32,
        call: &Call,
        usable: &Usable,
        rows: &mut Findings,
    ) -> Result<(), BuffersFault>
        requires usable { usable.now.parts ≡ usable_parts (V.facts view.now) (V.sound view.now) call.now.body }
        requires plain { is_persistent_kind call.now.body ≡ false }
        ensures rows { OnOk result ((r : Rank) (calls : List Call) → r.rank ≡ at.rank → length calls ≡ at.call → Sees r calls (V.facts view.now) (V.sound view.now) (V.starts view.now) types.now → Stands r calls self.old → Adds rows.old rows.new (BufferRows at r calls call.now)) }
        ensures stands { OnOk result ((r : Rank) (calls : List Call) → length calls ≡ at.call → Sees r calls (V.facts view.now) (V.sound view.now) (V.starts view.now) types.now → Stands r calls self.old → Stands r (calls ++ call.now ∷ []) self.new) }
        ensures within { OnOk result ((r : Rank) (calls : List Call) → r.size ≡ size → length calls ≡ at.call → Sees r calls (V.facts view.now) (V.sound view.now) (V.starts view.now) types.now → Stands r calls self.old → pending_limit_at r calls call.now ≡ None) }
        ensures over { IfErr result (λ fault. (r : Rank) (calls : List Call) → r.size ≡ size → length calls ≡ at.call → Sees r calls (V.facts view.now) (V.sound view.now) (V.starts view.now) types.now → Stands r calls self.old → IsPendingLimit (pending_limit_at r calls call.now) fault) }
    {
        take_plain(
            &mut self.pending,
            alloc,
            view,
            types,
            at,
            size,
            call,
            usable.parts,
            rows,
        )?;
        self.kept.release(call);
        Ok(())
    }

    /// A call that makes a persistent request.
    fn take_init<V: View>(
        &mut self,
        alloc: Global,
        view: &V,
        types: &Datatypes,
        at: Place,
        size: u32,
        call: &Call,
        usable: &Usable,
        rows: &mut Findings,
    ) -> Result<(), BuffersFault>
        requires usable { usable.now.parts ≡ usable_parts (V.facts view.now) (V.sound view.now) call.now.body }
        requires init { (is_persistent_kind call.now.body ≡ true) × (is_start_kind call.now.body ≡ false) }
        ensures rows { OnOk result ((r : Rank) (calls : List Call) → r.rank ≡ at.rank → length calls ≡ at.call → Sees r calls (V.facts view.now) (V.sound view.now) (V.starts view.now) types.now → Stands r calls self.old → Adds rows.old rows.new (BufferRows at r calls call.now)) }
        ensures stands { OnOk result ((r : Rank) (calls : List Call) → length calls ≡ at.call → Sees r calls (V.facts view.now) (V.sound view.now) (V.starts view.now) types.now → Stands r calls self.old → Stands r (calls ++ call.now ∷ []) self.new) }
        ensures within { OnOk result ((r : Rank) (calls : List Call) → r.size ≡ size → length calls ≡ at.call → Sees r calls (V.facts view.now) (V.sound view.now) (V.starts view.now) types.now → Stands r calls self.old → pending_limit_at r calls call.now ≡ None) }
        ensures over { IfErr result (λ fault. (r : Rank) (calls : List Call) → r.size ≡ size → length calls ≡ at.call → Sees r calls (V.facts view.now) (V.sound view.now) (V.starts view.now) types.now → Stands r calls self.old → IsPendingLimit (pending_limit_at r calls call.now) fault) }
    {
        let parts = take_init(
            &mut self.pending,
            alloc,
            view,
            types,
            at,
            size,
            call,
            usable.parts,
            rows,
        )?;
        self.kept.keep(view, call, parts)?;
        Ok(())
    }

    /// A call that starts persistent requests.
    fn take_start<V: View>(
        &mut self,
        alloc: Global,
        view: &V,
        types: &Datatypes,
        at: Place,
        size: u32,
        call: &Call,
        usable: &Usable,
        rows: &mut Findings,
    ) -> Result<(), BuffersFault>
        requires clear { usable.now.clear ≡ is_clear (V.facts view.now) call.now.body }
        requires start { is_start_kind call.now.body ≡ true }
        ensures rows { OnOk result ((r : Rank) (calls : List Call) → r.rank ≡ at.rank → length calls ≡ at.call → Sees r calls (V.facts view.now) (V.sound view.now) (V.starts view.now) types.now → Stands r calls self.old → Adds rows.old rows.new (BufferRows at r calls call.now)) }
        ensures stands { OnOk result ((r : Rank) (calls : List Call) → length calls ≡ at.call → Sees r calls (V.facts view.now) (V.sound view.now) (V.starts view.now) types.now → Stands r calls self.old → Stands r (calls ++ call.now ∷ []) self.new) }
        ensures within { OnOk result ((r : Rank) (calls : List Call) → r.size ≡ size → length calls ≡ at.call → Sees r calls (V.facts view.now) (V.sound view.now) (V.starts view.now) types.now → Stands r calls self.old → pending_limit_at r calls call.now ≡ None) }
        ensures over { IfErr result (λ fault. (r : Rank) (calls : List Call) → r.size ≡ size → length calls ≡ at.call → Sees r calls (V.facts view.now) (V.sound view.now) (V.starts view.now) types.now → Stands r calls self.old → IsPendingLimit (pending_limit_at r calls call.now) fault) }
    {
        take_start(
            &mut self.pending,
            alloc,
            view,
            &self.kept,
            at,
            size,
            call,
            usable.clear,
            rows,
        )?;
        Ok(())
    }

    /// Takes the next call: adds its rows of T1, T2 and T3, and then ends and begins operations. `usable` is what `check_args`
    /// answers at it, and `size` is the number of ranks. `TooWide` comes exactly where the call reaches the limit of the weights
    /// that are pending, before anything is laid out. After an error the buffers aren't to be used any more.
    pub fn take<V: View>(
        &mut self,
        alloc: Global,
        view: &V,
        types: &Datatypes,
        at: Place,
        size: u32,
        call: &Call,
        usable: &Usable,
        rows: &mut Findings,
    ) -> Result<(), BuffersFault>
        requires clear { usable.now.clear ≡ is_clear (V.facts view.now) call.now.body }
        requires usable { usable.now.parts ≡ usable_parts (V.facts view.now) (V.sound view.now) call.now.body }
        ensures rows { OnOk result ((r : Rank) (calls : List Call) → r.rank ≡ at.rank → length calls ≡ at.call → Sees r calls (V.facts view.now) (V.sound view.now) (V.starts view.now) types.now → Stands r calls self.old → Adds rows.old rows.new (BufferRows at r calls call.now)) }
        ensures stands { OnOk result ((r : Rank) (calls : List Call) → length calls ≡ at.call → Sees r calls (V.facts view.now) (V.sound view.now) (V.starts view.now) types.now → Stands r calls self.old → Stands r (calls ++ call.now ∷ []) self.new) }
        ensures within { OnOk result ((r : Rank) (calls : List Call) → r.size ≡ size → length calls ≡ at.call → Sees r calls (V.facts view.now) (V.sound view.now) (V.starts view.now) types.now → Stands r calls self.old → pending_limit_at r calls call.now ≡ None) }
        ensures over { IfErr result (λ fault. (r : Rank) (calls : List Call) → r.size ≡ size → length calls ≡ at.call → Sees r calls (V.facts view.now) (V.sound view.now) (V.starts view.now) types.now → Stands r calls self.old → IsPendingLimit (pending_limit_at r calls call.now) fault) }
    {
        match persistence_of(call) {
            Persistence::Starts => {
                self.take_start(alloc, view, types, at, size, call, usable, rows)
            }
            Persistence::Makes => {
                self.take_init(alloc, view, types, at, size, call, usable, rows)
            }
            Persistence::Neither => {
                self.take_plain(alloc, view, types, at, size, call, usable, rows)
            }
        }
    }
}
