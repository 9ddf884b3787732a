//! What a collective call gives to its wave.

ghost use Rattle.std.specs.Prelude.{◌≡◌, ◌&&◌, [], ℕ, Bool, Option, map, nat_eq, IfOk, IfSome, if◌then◌else◌};
ghost use Rattle.std.specs.List.{IsDistinct};
ghost use Rattle.must_call.specs.Bodies.{inputs_of};
ghost use Rattle.must_call.specs.Arguments.{all_seen};
ghost use Rattle.must_type.specs.Tree.{TypeTree};
ghost use Rattle.must_sig.specs.Signatures.{expansion};
ghost use Rattle.must_rules.specs.Clear.{is_clear};
ghost use Rattle.must_rules.specs.Significant.{first_told};
ghost use Rattle.must_args.specs.Settings.{has_sense};
ghost use Rattle.must_items.specs.Moved.{counts_in, type_in, where_significant, signatures_by};
ghost use Rattle.must_items.specs.CollectiveItems.{operation_in, oper_by, comm_answered, all_sound, Tells, IsCommute};
ghost use Rattle.must_items.specs.Typed.{HasTypes};

use crate::moved::side_moved;
use crate::named::{all_sound, group_of, members_of, operation_of, split_of};
use crate::signatures::signatures;
use must_args::{Setting, View, setting_of};
use must_base::NoMemory;
use must_call::{Argument, Call, Place, Side};
use must_coll::{Oper, SigList, WaveItem};
use must_derived::Datatypes;
use must_group::CommName;
use std::alloc::Global;

/// A communicator of a rank, which is live and sound.
#[derive(Clone, Copy, Drop)]
pub struct Communicator<'a> {
    /// Its handle.
    pub comm: u32,
    pub name: &'a CommName,
    /// How many collective calls the rank made on it.
    pub calls: u32,
}

/// The operation that a call names, if any.
pub fn operation_named(call: &Call) -> Option<u32>
    ensures { result ≡ first_told operation_in (inputs_of call.now.body) }
{
    operation_of(&call.body.inputs())
}

fn oper_of(operation: Option<u32>, commute: Option<bool>) -> Option<Oper>
    ensures { result ≡ oper_by (λ _. commute) operation }
{
    match operation {
        Some(number) => Some(Oper { number, commute }),
        None => None,
    }
}

/// Whether a call counts in the duties of its wave.
fn has_duties<V: View>(
    view: &V,
    types: &Datatypes,
    setting: &Setting,
    arguments: &[Argument<'_>],
    clear: bool,
) -> bool
    ensures { (trees : ℕ → Option TypeTree) → HasTypes types.now trees → result ≡ (clear && all_sound (V.facts view.now) trees (has_sense setting.now) (all_seen arguments.now)) }
{
    clear && all_sound(view, types, setting, arguments)
}

/// The signatures of what a side of a call moves, where the call counts in the duties of its wave.
fn side_signatures(
    alloc: Global,
    types: &Datatypes,
    setting: &Setting,
    arguments: &[Argument<'_>],
    side: Side,
    counts: bool,
) -> Result<SigList, NoMemory>
    ensures { IfOk result (λ sigs. (trees : ℕ → Option TypeTree) → HasTypes types.now trees → map expansion sigs ≡ (if counts then signatures_by trees setting.now.size (first_told (where_significant (has_sense setting.now) (counts_in side)) (all_seen arguments.now)) (first_told (where_significant (has_sense setting.now) (type_in side)) (all_seen arguments.now)) else [])) }
{
    if !counts {
        return Ok(SigList::from_vec(Vec::new(alloc)));
    }
    let moved = side_moved(setting, arguments, side);
    signatures(alloc, types, &moved, setting.size)
}

/// What a collective call on a communicator gives to its wave. `clear` says whether the call is, `commute` whether its operation
/// commutes, where a call made it. Where the call answered a communicator, its members are distinct.
pub fn collective_item<V: View>(
    alloc: Global,
    view: &V,
    types: &Datatypes,
    on: Communicator<'_>,
    at: Place,
    call: &Call,
    clear: bool,
    commute: Option<bool>,
) -> Result<WaveItem, NoMemory>
    requires clear { clear ≡ is_clear (V.facts view.now) call.now.body }
    requires members { IfSome (comm_answered call.now.body) (λ made. IsDistinct nat_eq made.members) }
    ensures tells { IfOk result (λ x. (trees : ℕ → Option TypeTree) (commutes : ℕ → Option Bool) → HasTypes types.now trees → IsCommute commutes call.now.body commute → Tells (V.facts view.now) trees commutes call.now.body x) }
    ensures place { IfOk result (λ x. (x.place ≡ at) × (x.comm ≡ on.entry.comm) × (x.name ≡ on.entry.name.now) × (x.number ≡ on.entry.calls)) }
{
    let body = &call.body;
    let arguments = body.inputs();
    let setting = setting_of(view, body, &arguments);
    let counts = has_duties(view, types, &setting, &arguments, clear);
    let sends = side_signatures(alloc, types, &setting, &arguments, Side::Send, counts)?;
    let recvs = side_signatures(alloc, types, &setting, &arguments, Side::Receive, counts)?;
    Ok(WaveItem {
        place: at,
        comm: on.comm,
        name: on.name.copy()?,
        number: on.calls,
        kind: setting.kind,
        counts,
        in_place: setting.in_place,
        root: setting.root.unwrap_or(0),
        operation: oper_of(operation_of(&arguments), commute),
        sends,
        recvs,
        split: split_of(body),
        group: group_of(alloc, view, body)?,
        members: members_of(alloc, body)?,
    })
}
