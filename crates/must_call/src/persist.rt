//! Calls that make and start persistent requests (MPI 3.1 section 3.9).

ghost use Rattle.std.specs.Prelude.{◌≡◌};
ghost use Rattle.std.specs.Option.{option_map};
ghost use Rattle.must_call.specs.declared.body.Body.TheVariants as body;
ghost use Rattle.must_call.specs.Kinds.{kind_of};
ghost use Rattle.must_call.specs.Bodies.{inputs_of, given_of};
ghost use Rattle.must_call.specs.Arguments.{all_seen, output_seen};

use crate::argument::{Argument, Arguments, Given, given_made, listed};
use crate::class::Class;
use crate::field::{Handle, Int, Side};
use crate::kind::Kind;
use crate::lists::HandleList;

/// Calls that make and start persistent requests (MPI 3.1 section 3.9).
#[derive(Drop)]
pub enum Persist {
    /// `MPI_Send_init`.
    SendInit {
        buf: u64,
        count: i32,
        dtype: u32,
        dest: i32,
        tag: i32,
        comm: u32,
        request: Option<u32>,
    },
    /// `MPI_Ssend_init`.
    SsendInit {
        buf: u64,
        count: i32,
        dtype: u32,
        dest: i32,
        tag: i32,
        comm: u32,
        request: Option<u32>,
    },
    /// `MPI_Recv_init`.
    RecvInit {
        buf: u64,
        count: i32,
        dtype: u32,
        source: i32,
        tag: i32,
        comm: u32,
        request: Option<u32>,
    },
    /// `MPI_Start`.
    Start {
        request: u32,
    },
    /// `MPI_Startall`.
    Startall {
        requests: HandleList,
    },
}

impl Persist {
    /// The kind of the call.
    pub fn kind(&self) -> Kind
        ensures { result ≡ kind_of (body.Persist self.now) }
    {
        match self {
            Persist::SendInit { .. } => Kind::SendInit,
            Persist::SsendInit { .. } => Kind::SsendInit,
            Persist::RecvInit { .. } => Kind::RecvInit,
            Persist::Start { .. } => Kind::Start,
            Persist::Startall { .. } => Kind::Startall,
        }
    }

    /// The fields that stand in each record of the kind.
    pub fn inputs(&self) -> Arguments<'_>
        ensures { all_seen result.items ≡ inputs_of (body.Persist self.now) }
    {
        match self {
            Persist::SendInit {
                buf,
                count,
                dtype,
                dest,
                tag,
                comm,
                ..
            } => listed(&[
                Argument::Buffer(Side::Send, *buf),
                Argument::I32(Int::Count(Side::Send), *count),
                Argument::Handle(Handle::Datatype(Side::Send), *dtype),
                Argument::I32(Int::Dest, *dest),
                Argument::I32(Int::Tag(Side::Send), *tag),
                Argument::Handle(Handle::Comm, *comm),
            ]),
            Persist::SsendInit {
                buf,
                count,
                dtype,
                dest,
                tag,
                comm,
                ..
            } => listed(&[
                Argument::Buffer(Side::Send, *buf),
                Argument::I32(Int::Count(Side::Send), *count),
                Argument::Handle(Handle::Datatype(Side::Send), *dtype),
                Argument::I32(Int::Dest, *dest),
                Argument::I32(Int::Tag(Side::Send), *tag),
                Argument::Handle(Handle::Comm, *comm),
            ]),
            Persist::RecvInit {
                buf,
                count,
                dtype,
                source,
                tag,
                comm,
                ..
            } => listed(&[
                Argument::Buffer(Side::Receive, *buf),
                Argument::I32(Int::Count(Side::Receive), *count),
                Argument::Handle(Handle::Datatype(Side::Receive), *dtype),
                Argument::I32(Int::Source, *source),
                Argument::I32(Int::Tag(Side::Receive), *tag),
                Argument::Handle(Handle::Comm, *comm),
            ]),
            Persist::Start { request } => listed(&[Argument::Handle(Handle::Request, *request)]),
            Persist::Startall { requests } => listed(&[Argument::Requests(requests)]),
        }
    }

    /// The outputs, where they stand.
    pub fn given(&self) -> Option<Given<'_>>
        ensures { option_map output_seen result ≡ given_of (body.Persist self.now) }
    {
        match self {
            Persist::SendInit { request, .. }
            | Persist::SsendInit { request, .. }
            | Persist::RecvInit { request, .. } => given_made(Class::Request, request),
            Persist::Start { .. } | Persist::Startall { .. } => None,
        }
    }
}
