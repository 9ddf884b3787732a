//! Communicators that a call makes of others, and collective calls.

ghost use Rattle.std.specs.Prelude.{◌≡◌, Some, map, option_map};
ghost use Rattle.must_call.specs.declared.body.Body.TheVariants as body;
ghost use Rattle.must_call.specs.declared.field.Field.TheVariants as field;
ghost use Rattle.must_call.specs.Arguments.{seen, all_seen};
ghost use Rattle.must_rules.specs.Significant.{comm_in, first_told};
ghost use Rattle.must_rules.specs.Communicators.{is_there, is_collective, comm_named, first_member, derived, created, derived_of};
ghost use Rattle.must_local.specs.Objects.{AreMembers, HasMembers};
ghost use Rattle.must_local.specs.Seen.{derived_seen};

use must_call::{Argument, Body, Handle, Life, MadeComm, Object, Point};

/// A communicator that is made of another.
#[derive(Clone, Copy)]
pub struct Derived<'a> {
    pub parent: u32,
    /// What tells it apart from those that the same call makes at other ranks.
    pub class: i32,
    pub members: &'a [u32],
}

/// Whether a handle may be used: it is live, or MPI names it.
pub fn is_there(life: Life) -> bool
    ensures { result ≡ is_there life }
{
    matches!(life, Life::Live { .. } | Life::Predefined)
}

/// Whether all members of a communicator make this call.
pub fn is_collective(body: &Body) -> bool
    ensures { result ≡ is_collective body.now }
{
    match body {
        Body::Object(object) => matches!(
            object,
            Object::CommDup { .. }
                | Object::CommSplit { .. }
                | Object::CommCreate { .. }
                | Object::CommFree { .. }
        ),
        Body::Collective(_) | Body::Started(_) => true,
        _ => false,
    }
}

fn comm_of(role: Handle, handle: u32) -> Option<u32>
    ensures { result ≡ comm_in (field.Handle role) handle }
{
    match role {
        Handle::Comm => Some(handle),
        _ => None,
    }
}

fn comm_told(argument: &Argument<'_>) -> Option<u32>
    ensures { result ≡ comm_in (seen argument.now).0 (seen argument.now).1 }
{
    match argument {
        Argument::Handle(role, handle) => comm_of(*role, *handle),
        _ => None,
    }
}

fn first_comm(arguments: &[Argument<'_>]) -> Option<u32>
    ensures { result ≡ first_told comm_in (all_seen arguments.now) }
{
    for argument in arguments {
        if let Some(comm) = comm_told(argument) {
            return Some(comm);
        }
    }
    None
}

/// The communicator of a send, a receive or a probe.
fn point_comm(point: &Point) -> u32
    ensures { Some result ≡ comm_named (body.Point point.now) }
{
    match point {
        Point::Send { comm, .. } => *comm,
        Point::Ssend { comm, .. } => *comm,
        Point::Bsend { comm, .. } => *comm,
        Point::Rsend { comm, .. } => *comm,
        Point::Recv { comm, .. } => *comm,
        Point::Sendrecv { comm, .. } => *comm,
        Point::Probe { comm, .. } => *comm,
        Point::Iprobe { comm, .. } => *comm,
        Point::Isend { comm, .. } => *comm,
        Point::Issend { comm, .. } => *comm,
        Point::Ibsend { comm, .. } => *comm,
        Point::Irsend { comm, .. } => *comm,
        Point::Irecv { comm, .. } => *comm,
    }
}

/// The communicator that a call names.
pub fn comm_named(body: &Body) -> Option<u32>
    ensures { result ≡ comm_named body.now }
{
    match body {
        Body::Point(point) => Some(point_comm(point)),
        Body::Frame(_) | Body::Finish(_) | Body::Derive(_) => None,
        _ => first_comm(&body.inputs()),
    }
}

fn first_of(members: &[u32]) -> i32
    requires { AreMembers members.now }
    ensures { result ≡ first_member members.now }
{
    if members.is_empty() {
        0
    } else {
        members[0] as i32
    }
}

/// The communicator that a call makes of another.
pub fn derived_comm(body: &Body) -> Option<Derived<'_>>
    requires { HasMembers (derived_of body.now) }
    ensures { option_map derived_seen result ≡ derived_of body.now }
{
    match body {
        Body::Object(
            Object::CommDup {
                comm,
                made: Some(made),
            },
        ) => Some(Derived {
            parent: *comm,
            class: 0,
            members: made.members.items(),
        }),
        Body::Object(
            Object::CommSplit {
                comm,
                color,
                made: Some(made),
                ..
            },
        ) => Some(Derived {
            parent: *comm,
            class: *color,
            members: made.members.items(),
        }),
        Body::Object(
            Object::CommCreate {
                comm,
                made: Some(made),
                ..
            },
        ) => {
            let members = made.members.items();
            Some(Derived {
                parent: *comm,
                class: first_of(members),
                members,
            })
        }
        _ => None,
    }
}
