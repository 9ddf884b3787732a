//! What the rules know of a call when they ask its fields.

ghost use Rattle.std.specs.Prelude.{◌≡◌, ◌||◌, length, IsTrue};
ghost use Rattle.std.specs.Option.{option_map};
ghost use Rattle.must_call.specs.declared.field.Field.TheVariants as field;
ghost use Rattle.must_call.specs.Arguments.{seen, all_seen};
ghost use Rattle.must_call.specs.Bodies.{inputs_of};
ghost use Rattle.must_rules.specs.Significant.{or_else, first_told, comm_in, root_in, in_place_in, is_true, comm_by, side, is_send, is_receive, is_own, is_roots, is_position, exscan_seat, root_seat, seat_by, names_root};
ghost use Rattle.must_rules.specs.Facts.{size_of_comm};
ghost use Rattle.must_rules.specs.Breaches.{sends, part_of};
ghost use Rattle.must_args.specs.Settings.{told_seat, has_sense, IsSetting};

use crate::view::View;
use must_call::{Argument, Body, Flag, Handle, Int, Kind, Side};

/// Where a rank stands in a call.
#[derive(Clone, Copy)]
pub enum Seat {
    /// The kind has no root.
    Equal,
    /// At the first position of `MPI_Exscan`, which receives nothing.
    First,
    AtRoot,
    BesideRoot,
    /// There is a root, but the communicator isn't live and sound, or the root is out of range.
    NoSeat,
}

/// What is known of a call when its fields are asked, worked out once.
#[derive(Clone, Copy)]
pub struct Setting {
    pub kind: Kind,
    /// The handle of its communicator.
    pub comm: Option<u32>,
    /// Its root, as it was given.
    pub root: Option<i32>,
    /// The program gave `MPI_IN_PLACE`.
    pub in_place: bool,
    /// The call sends.
    pub sends: bool,
    /// How many members its communicator has; none where it isn't live and sound.
    pub size: Option<u32>,
    /// The greatest tag (MPI 3.1, 8.1.2).
    pub tag_ub: i32,
    pub seat: Seat,
}

/// The side of a transfer that a field speaks of.
pub(crate) fn side_of(argument: &Argument<'_>) -> Side
    ensures { result ≡ side (seen argument.now).0 }
{
    match argument {
        Argument::Buffer(side, _)
        | Argument::Handle(Handle::Datatype(side), _)
        | Argument::I32(Int::Count(side), _)
        | Argument::I32(Int::Tag(side), _)
        | Argument::Amounts(side, _) => *side,
        Argument::I32(Int::Dest, _) => Side::Send,
        Argument::I32(Int::Source, _) => Side::Receive,
        _ => Side::Both,
    }
}

fn comm_of(role: Handle, handle: u32) -> Option<u32>
    ensures { result ≡ comm_in (field.Handle role) handle }
{
    match role {
        Handle::Comm => Some(handle),
        Handle::Group
        | Handle::Datatype(_)
        | Handle::Old
        | Handle::Subject
        | Handle::Operation
        | Handle::Request => None,
    }
}

fn root_of(role: Int, value: &i32) -> Option<i32>
    ensures { result ≡ root_in (field.I32 role) value.now }
{
    match role {
        Int::Root => Some(*value),
        Int::Count(_)
        | Int::Copies
        | Int::Block
        | Int::Stride
        | Int::Dest
        | Int::Source
        | Int::Tag(_)
        | Int::Color
        | Int::Key => None,
    }
}

fn in_place_of(flag: Flag, bit: bool) -> Option<bool>
    ensures { result ≡ in_place_in (field.Bit flag) bit }
{
    match flag {
        Flag::InPlace => Some(bit),
        Flag::Commute => None,
    }
}

fn comm_told(argument: &Argument<'_>) -> Option<u32>
    ensures { result ≡ comm_in (seen argument.now).0 (seen argument.now).1 }
{
    match argument {
        Argument::Handle(role, handle) => comm_of(*role, *handle),
        _ => None,
    }
}

fn root_told(argument: &Argument<'_>) -> Option<i32>
    ensures { result ≡ root_in (seen argument.now).0 (seen argument.now).1 }
{
    match argument {
        Argument::I32(role, value) => root_of(*role, value),
        _ => None,
    }
}

fn in_place_told(argument: &Argument<'_>) -> Option<bool>
    ensures { result ≡ in_place_in (seen argument.now).0 (seen argument.now).1 }
{
    match argument {
        Argument::Bit(flag, bit) => in_place_of(*flag, *bit),
        _ => None,
    }
}

pub(crate) fn is_send(side: Side) -> bool
    ensures { result ≡ is_send side }
{
    matches!(side, Side::Send)
}

pub(crate) fn is_receive(side: Side) -> bool
    ensures { result ≡ is_receive side }
{
    matches!(side, Side::Receive)
}

fn either(first: bool, second: bool) -> bool
    ensures { result ≡ (first || second) }
{
    first || second
}

/// The first of two that is there.
pub(crate) fn first_of<T: Copy>(first: Option<T>, second: Option<T>) -> Option<T>
    ensures { result ≡ or_else first second }
{
    match first {
        Some(x) => Some(x),
        None => second,
    }
}

fn is_true(told: Option<bool>) -> bool
    ensures { result ≡ is_true told }
{
    match told {
        Some(told) => told,
        None => false,
    }
}

/// What the fields of a call say at once.
#[derive(Drop)]
struct Look {
    comm: Option<u32>,
    root: Option<i32>,
    in_place: Option<bool>,
    sends: bool,
}

fn look_at(arguments: &[Argument<'_>]) -> Look
    ensures comm { result.comm ≡ first_told comm_in (all_seen arguments.now) }
    ensures root { result.root ≡ first_told root_in (all_seen arguments.now) }
    ensures in_place { result.in_place ≡ first_told in_place_in (all_seen arguments.now) }
    ensures sends { result.sends ≡ sends (all_seen arguments.now) }
{
    let mut comm = None;
    let mut root = None;
    let mut in_place = None;
    let mut sends = false;
    for argument in arguments {
        comm = first_of(comm, comm_told(argument));
        root = first_of(root, root_told(argument));
        in_place = first_of(in_place, in_place_told(argument));
        sends = either(sends, is_send(side_of(argument)));
    }
    Look {
        comm,
        root,
        in_place,
        sends,
    }
}

/// A position among so many members.
pub(crate) fn has_position(members: u32, rank: i32) -> bool
    ensures { result ≡ is_position members rank }
{
    0 <= rank && i64::from(rank) < i64::from(members)
}

fn seat_of<V: View>(view: &V, kind: Kind, root: Option<i32>, comm: Option<u32>) -> Seat
    ensures { told_seat result ≡ seat_by kind root (comm_by (V.facts view.now) comm) }
{
    match (kind, root) {
        (Kind::Exscan, _) => first_seat(view, comm),
        (_, None) => Seat::Equal,
        (_, Some(root)) => rooted_seat(view, root, comm),
    }
}

fn first_seat<V: View>(view: &V, comm: Option<u32>) -> Seat
    ensures { told_seat result ≡ exscan_seat (comm_by (V.facts view.now) comm) }
{
    match position_in(view, comm) {
        Some(0) => Seat::First,
        _ => Seat::Equal,
    }
}

fn rooted_seat<V: View>(view: &V, root: i32, comm: Option<u32>) -> Seat
    ensures { told_seat result ≡ root_seat root (comm_by (V.facts view.now) comm) }
{
    match (size_in(view, comm), position_in(view, comm)) {
        (Some(members), Some(position)) if has_position(members, root) => {
            if i64::from(root) == i64::from(position) {
                Seat::AtRoot
            } else {
                Seat::BesideRoot
            }
        }
        _ => Seat::NoSeat,
    }
}

/// How many members the communicator has; none where it isn't live and sound.
fn size_in<V: View>(view: &V, comm: Option<u32>) -> Option<u32>
    ensures { result ≡ option_map size_of_comm (comm_by (V.facts view.now) comm) }
{
    match comm {
        Some(comm) => view.comm_size(comm),
        None => None,
    }
}

/// The own position in the communicator; none where it isn't live and sound.
fn position_in<V: View>(view: &V, comm: Option<u32>) -> Option<u32>
    ensures { result ≡ option_map (λ c. c.position) (comm_by (V.facts view.now) comm) }
{
    match comm {
        Some(comm) => view.own_rank(comm),
        None => None,
    }
}

/// What is known of a call with these fields.
pub fn setting_of<V: View>(view: &V, body: &Body, arguments: &[Argument<'_>]) -> Setting
    requires { all_seen arguments.now ≡ inputs_of body.now }
    ensures { IsSetting (V.facts view.now) body.now result }
{
    let look = look_at(arguments);
    let kind = body.kind();
    Setting {
        kind,
        comm: look.comm,
        root: look.root,
        in_place: is_true(look.in_place),
        sends: look.sends,
        size: size_in(view, look.comm),
        tag_ub: view.tag_ub(),
        seat: seat_of(view, kind, look.root, look.comm),
    }
}

/// The side that `MPI_IN_PLACE` leaves out.
fn is_own(kind: Kind, side: Side) -> bool
    ensures { result ≡ is_own kind side }
{
    match kind {
        Kind::Scatter | Kind::Scatterv => is_receive(side),
        _ => is_send(side),
    }
}

/// The side that the root alone has.
fn is_roots(kind: Kind, side: Side) -> bool
    ensures { result ≡ is_roots kind side }
{
    match kind {
        Kind::Scatter | Kind::Scatterv => is_send(side),
        _ => is_receive(side),
    }
}

fn names_root(argument: &Argument<'_>) -> bool
    ensures { result ≡ names_root (seen argument.now).0 }
{
    matches!(
        argument,
        Argument::Handle(Handle::Comm, _) | Argument::I32(Int::Root, _)
    )
}

impl Setting {
    /// Whether a field is significant (docs/RULES.md, "Significant arguments").
    pub fn has_sense(&self, argument: &Argument<'_>) -> bool
        ensures { result ≡ has_sense self.now (seen argument.now).0 }
    {
        let side = side_of(argument);
        match self.seat {
            Seat::NoSeat => names_root(argument),
            Seat::AtRoot | Seat::Equal => !(self.in_place && is_own(self.kind, side)),
            Seat::BesideRoot => !is_roots(self.kind, side),
            Seat::First => !(self.in_place && is_own(self.kind, side)) && !is_receive(side),
        }
    }

    /// The part that a field belongs to: what is received is part 1 where the call sends too.
    pub(crate) fn part(&self, argument: &Argument<'_>) -> u32
        ensures { result ≡ part_of self.now.sends (side (seen argument.now).0) }
    {
        u32::from(self.sends && is_receive(side_of(argument)))
    }
}
