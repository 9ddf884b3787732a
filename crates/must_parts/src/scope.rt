//! What is known of a call beside the fields of its buffers.

ghost use Rattle.std.specs.Prelude.{◌≡◌, ◌||◌, Some, if◌then◌else◌};
ghost use Rattle.std.specs.Option.{option_map};
ghost use Rattle.must_call.specs.Arguments.{all_seen};
ghost use Rattle.must_call.specs.Bodies.{inputs_of};
ghost use Rattle.must_rules.specs.Significant.{is_true, comm_by, is_send, is_receive};
ghost use Rattle.must_rules.specs.Parts.{access_at, is_for_each};
ghost use Rattle.must_parts.specs.Scopes.{seats_of, both_seats, is_root_in, IsScope};

use crate::roles::{comm_named, in_place_said, is_receive, is_send, root_named, sends};
use must_args::View;
use must_call::{Argument, Body, Kind, Side};
use must_pending::Access;

/// The number of members of a communicator, and the own position among them.
#[derive(Clone, Copy)]
pub(crate) struct Seats {
    pub members: u32,
    pub position: u32,
}

/// What is known of a call beside the fields of its buffers.
#[derive(Clone, Copy)]
pub(crate) struct Scope {
    pub kind: Kind,
    pub in_place: bool,
    /// The call sends.
    pub sends: bool,
    /// None where the communicator isn't live and sound.
    pub seats: Option<Seats>,
    /// This rank is the root of the call.
    pub is_root: bool,
}

fn is_true(told: Option<bool>) -> bool
    ensures { result ≡ is_true told }
{
    match told {
        Some(told) => told,
        None => false,
    }
}

fn seats_in<V: View>(view: &V, comm: Option<u32>) -> Option<Seats>
    ensures { result ≡ option_map seats_of (comm_by (V.facts view.now) comm) }
{
    match comm {
        Some(comm) => seats_at(view.comm_size(comm), view.own_rank(comm)),
        None => None,
    }
}

fn seats_at(members: Option<u32>, position: Option<u32>) -> Option<Seats>
    ensures { result ≡ both_seats members position }
{
    match (members, position) {
        (Some(members), Some(position)) => Some(Seats { members, position }),
        _ => None,
    }
}

fn is_root(root: Option<i32>, seats: Option<Seats>) -> bool
    ensures { result ≡ is_root_in root seats }
{
    match (root, seats) {
        (Some(root), Some(seats)) => i64::from(seats.position) == i64::from(root),
        _ => false,
    }
}

/// The scope of a call with these fields.
pub(crate) fn scope_of<V: View>(view: &V, body: &Body, arguments: &[Argument<'_>]) -> Scope
    requires { all_seen arguments.now ≡ inputs_of body.now }
    ensures { IsScope (V.facts view.now) body.now result }
{
    let seats = seats_in(view, comm_named(arguments));
    Scope {
        kind: body.kind(),
        in_place: is_true(in_place_said(arguments)),
        sends: sends(arguments),
        seats,
        is_root: is_root(root_named(arguments), seats),
    }
}

/// What a call does with the buffer of a side.
pub(crate) fn access_of(is_root: bool, side: Side) -> Access
    ensures { result ≡ access_at is_root side }
{
    match (side, is_root) {
        (Side::Send, _) | (Side::Both, true) => Access::Reads,
        (Side::Receive, _) | (Side::Both, false) => Access::Writes,
    }
}

/// Whether the count of a side is that of each member, and its buffer has so many for each.
pub(crate) fn is_for_each(kind: Kind, in_place: bool, side: Side) -> bool
    ensures { result ≡ is_for_each kind in_place side }
{
    match kind {
        Kind::Gather | Kind::Igather | Kind::Allgather | Kind::Iallgather => is_receive(side),
        Kind::Scatter => is_send(side),
        Kind::Alltoall | Kind::Ialltoall => true,
        Kind::ReduceScatter | Kind::ReduceScatterBlock => is_send(side) || in_place,
        _ => false,
    }
}
