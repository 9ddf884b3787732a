//! What the sides of a call ask for.

ghost use Rattle.std.specs.Prelude.{◌≡◌, ◌&&◌, ◌||◌, [], ℕ, ℤ, List, Option, not, nat_eq, nat_le, is_some, if◌then◌else◌, IfOk};
ghost use Rattle.std.specs.Ordering.{int_eq};
ghost use Rattle.must_call.specs.declared.constants.TheConstants.{PROC_NULL};
ghost use Rattle.must_call.specs.declared.field.Side.{Side};
ghost use Rattle.must_call.specs.declared.field.Side.TheVariants as side;
ghost use Rattle.must_call.specs.declared.call.Call.{Call};
ghost use Rattle.must_call.specs.Kinds.{kind_of};
ghost use Rattle.must_type.specs.Constructs.{natural};
ghost use Rattle.must_type.specs.Tree.{TypeTree};
ghost use Rattle.must_sig.specs.Signatures.{expansion};
ghost use Rattle.must_rules.specs.Rank.{Rank};
ghost use Rattle.must_rules.specs.Known.{facts_of, clear_behind};
ghost use Rattle.must_rules.specs.Types.{sound_type};
ghost use Rattle.must_rules.specs.UsableParts.{usable_parts};
ghost use Rattle.must_derived.specs.Standing.{Stands};
ghost use Rattle.must_items.specs.Typed.{HasTypes};
ghost use Rattle.must_parts.specs.Matching.{MatchedOption};
ghost use Rattle.must_messages.specs.Asking.{action_seen};
ghost use Rattle.must_rules.specs.Operations.{action_of, message_of, message_probed};
ghost use Rattle.must_begin.specs.Terms.{terms_of};
ghost use Rattle.must_begin.specs.Telling.{IsOn, IsAskedOf, HasTerms};

use crate::named::Named;
use crate::terms::{Terms, mode_of, probe_terms, sent_terms, taken_terms};
use must_args::View;
use must_base::NoMemory;
use must_call::{Call, PROC_NULL};
use must_derived::Datatypes;
use must_messages::{Asked, Deed};
use must_sig::Sig;
use must_type::TypeNo;
use std::alloc::Global;

/// A count that isn't below zero, and else none.
fn elements(count: i32) -> u64
    ensures { result ≡ natural count }
{
    u64::try_from(count).unwrap_or(0)
}

/// Whether a part is among the usable ones: bit i says that part i is.
fn has_part(parts: u8, part: u32) -> bool
    ensures { result ≡ (if nat_eq part 0 then (nat_eq parts 1 || nat_eq parts 3) else nat_le 2 parts) }
{
    if part == 0 {
        parts == 1 || parts == 3
    } else {
        2 <= parts
    }
}

/// What is asked for on a communicator with these terms; none where the datatype isn't sound. Want of memory is answered too where
/// the datatype isn't live any more, which that of a clear call is.
fn asked(
    alloc: Global,
    types: &Datatypes,
    on: Named<'_>,
    deed: Deed,
    terms: Terms,
) -> Result<Option<Asked>, NoMemory>
    ensures { IfOk result (λ asked. (trees : ℕ → Option TypeTree) → HasTypes types.now trees → MatchedOption (HasTerms deed on.entry.comm on.entry.name.now terms) asked (trees terms.dtype)) }
{
    let Some(no) = types.type_no(terms.dtype) else {
        return Ok(None);
    };
    let table = types.table();
    if !table.is_live(no) {
        return Err(NoMemory);
    }
    let name = on.name.copy()?;
    let sig = Sig::of(alloc, table, no, elements(terms.count))?;
    Ok(Some(Asked {
        deed,
        comm: on.comm,
        name,
        peer: terms.peer,
        tag: terms.tag,
        sig,
    }))
}

/// What a side of a call asks for with these terms, where its part is usable: bit i of `parts` says that part i is.
fn asked_by(
    alloc: Global,
    types: &Datatypes,
    on: Option<Named<'_>>,
    parts: u8,
    deed: Deed,
    terms: Option<Terms>,
) -> Result<Option<Asked>, NoMemory>
    ensures { IfOk result (λ asked. (r : Rank) (calls : List Call) (call : Call) (s : Side) → terms ≡ terms_of call.body s → action_seen deed ≡ action_of (kind_of call.body) s → parts ≡ usable_parts (facts_of r calls) (sound_type (clear_behind r) calls) call.body → Stands (clear_behind r) types.now calls → IsOn r calls call.body on.entry → IsAskedOf asked (message_of r calls call s)) }
{
    let Some(terms) = terms else {
        return Ok(None);
    };
    if !has_part(parts, terms.part) {
        return Ok(None);
    }
    let Some(on) = on else {
        return Ok(None);
    };
    let asked = asked(alloc, types, on, deed, terms)?;
    Ok(asked)
}

/// What a call sends, where that is usable: bit i of `parts` says that part i is.
pub(crate) fn sent(
    alloc: Global,
    types: &Datatypes,
    on: Option<Named<'_>>,
    call: &Call,
    parts: u8,
) -> Result<Option<Asked>, NoMemory>
    ensures { IfOk result (λ asked. (r : Rank) (calls : List Call) → parts ≡ usable_parts (facts_of r calls) (sound_type (clear_behind r) calls) call.now.body → Stands (clear_behind r) types.now calls → IsOn r calls call.now.body on.entry → IsAskedOf asked (message_of r calls call.now side.Send)) }
{
    let terms = sent_terms(&call.body);
    let deed = Deed::Send {
        mode: mode_of(call.kind()),
    };
    let asked = asked_by(alloc, types, on, parts, deed, terms)?;
    Ok(asked)
}

/// What a call receives, where that is usable: bit i of `parts` says that part i is.
pub(crate) fn taken(
    alloc: Global,
    types: &Datatypes,
    on: Option<Named<'_>>,
    call: &Call,
    parts: u8,
) -> Result<Option<Asked>, NoMemory>
    ensures { IfOk result (λ asked. (r : Rank) (calls : List Call) → parts ≡ usable_parts (facts_of r calls) (sound_type (clear_behind r) calls) call.now.body → Stands (clear_behind r) types.now calls → IsOn r calls call.now.body on.entry → IsAskedOf asked (message_of r calls call.now side.Receive)) }
{
    let terms = taken_terms(&call.body);
    let asked = asked_by(alloc, types, on, parts, Deed::Receive, terms)?;
    Ok(asked)
}

/// The signature of nothing.
fn nothing(alloc: Global, types: &Datatypes) -> Result<Sig, NoMemory>
    ensures { IfOk result (λ sig. expansion sig ≡ []) }
{
    let first = TypeNo { number: 1 };
    let table = types.table();
    if !table.is_live(first) {
        return Err(NoMemory);
    }
    let sig = Sig::of(alloc, table, first, 0)?;
    Ok(sig)
}

/// Whether a clear probe on a communicator looks for a message from this source.
fn looks<V: View>(view: &V, clear: bool, comm: u32, source: i32) -> bool
    ensures { result ≡ (clear && (is_some ((V.facts view.now).comm comm) && not (int_eq source PROC_NULL))) }
{
    clear && (view.own_rank(comm).is_some() && source != PROC_NULL)
}

/// What a call probes; `clear` says whether it is.
pub(crate) fn probed<V: View>(
    alloc: Global,
    view: &V,
    types: &Datatypes,
    on: Option<Named<'_>>,
    call: &Call,
    clear: bool,
) -> Result<Option<Asked>, NoMemory>
    ensures { IfOk result (λ asked. (r : Rank) (calls : List Call) → V.facts view.now ≡ facts_of r calls → clear ≡ clear_behind r calls call.now → IsOn r calls call.now.body on.entry → IsAskedOf asked (message_probed r calls call.now)) }
{
    let Some(terms) = probe_terms(&call.body) else {
        return Ok(None);
    };
    let Some(on) = on else {
        return Ok(None);
    };
    if !looks(view, clear, on.comm, terms.source) {
        return Ok(None);
    }
    let name = on.name.copy()?;
    let sig = nothing(alloc, types)?;
    Ok(Some(Asked {
        deed: Deed::Probe,
        comm: on.comm,
        name,
        peer: terms.source,
        tag: terms.tag,
        sig,
    }))
}
