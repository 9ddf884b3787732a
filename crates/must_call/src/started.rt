//! Starts of collective calls (MPI 3.1 section 5.12).

ghost use Rattle.std.specs.Prelude.{◌≡◌};
ghost use Rattle.std.specs.Option.{option_map};
ghost use Rattle.must_call.specs.declared.body.Body.TheVariants as body;
ghost use Rattle.must_call.specs.Kinds.{kind_of};
ghost use Rattle.must_call.specs.Bodies.{inputs_of, given_of};
ghost use Rattle.must_call.specs.Arguments.{all_seen, output_seen};

use crate::argument::{Argument, Arguments, Given, given_made, listed};
use crate::class::Class;
use crate::field::{Flag, Handle, Int, Side};
use crate::kind::Kind;

/// Starts of collective calls (MPI 3.1 section 5.12).
#[derive(Drop)]
pub enum Started {
    /// `MPI_Ibarrier`.
    Ibarrier {
        comm: u32,
        request: Option<u32>,
    },
    /// `MPI_Ibcast`.
    Ibcast {
        buf: u64,
        count: i32,
        dtype: u32,
        root: i32,
        comm: u32,
        request: Option<u32>,
    },
    /// `MPI_Igather`.
    Igather {
        in_place: bool,
        sbuf: u64,
        scount: i32,
        stype: u32,
        rbuf: u64,
        rcount: i32,
        rtype: u32,
        root: i32,
        comm: u32,
        request: Option<u32>,
    },
    /// `MPI_Iallgather`.
    Iallgather {
        in_place: bool,
        sbuf: u64,
        scount: i32,
        stype: u32,
        rbuf: u64,
        rcount: i32,
        rtype: u32,
        comm: u32,
        request: Option<u32>,
    },
    /// `MPI_Ialltoall`.
    Ialltoall {
        in_place: bool,
        sbuf: u64,
        scount: i32,
        stype: u32,
        rbuf: u64,
        rcount: i32,
        rtype: u32,
        comm: u32,
        request: Option<u32>,
    },
    /// `MPI_Ireduce`.
    Ireduce {
        in_place: bool,
        sbuf: u64,
        rbuf: u64,
        count: i32,
        dtype: u32,
        op: u32,
        root: i32,
        comm: u32,
        request: Option<u32>,
    },
    /// `MPI_Iallreduce`.
    Iallreduce {
        in_place: bool,
        sbuf: u64,
        rbuf: u64,
        count: i32,
        dtype: u32,
        op: u32,
        comm: u32,
        request: Option<u32>,
    },
}

impl Started {
    /// The kind of the call.
    pub fn kind(&self) -> Kind
        ensures { result ≡ kind_of (body.Started self.now) }
    {
        match self {
            Started::Ibarrier { .. } => Kind::Ibarrier,
            Started::Ibcast { .. } => Kind::Ibcast,
            Started::Igather { .. } => Kind::Igather,
            Started::Iallgather { .. } => Kind::Iallgather,
            Started::Ialltoall { .. } => Kind::Ialltoall,
            Started::Ireduce { .. } => Kind::Ireduce,
            Started::Iallreduce { .. } => Kind::Iallreduce,
        }
    }

    /// The fields that stand in each record of the kind.
    pub fn inputs(&self) -> Arguments<'_>
        ensures { all_seen result.items ≡ inputs_of (body.Started self.now) }
    {
        match self {
            Started::Ibarrier { comm, .. } => listed(&[Argument::Handle(Handle::Comm, *comm)]),
            Started::Ibcast {
                buf,
                count,
                dtype,
                root,
                comm,
                ..
            } => listed(&[
                Argument::Buffer(Side::Both, *buf),
                Argument::I32(Int::Count(Side::Both), *count),
                Argument::Handle(Handle::Datatype(Side::Both), *dtype),
                Argument::I32(Int::Root, *root),
                Argument::Handle(Handle::Comm, *comm),
            ]),
            Started::Igather {
                in_place,
                sbuf,
                scount,
                stype,
                rbuf,
                rcount,
                rtype,
                root,
                comm,
                ..
            } => listed(&[
                Argument::Bit(Flag::InPlace, *in_place),
                Argument::Buffer(Side::Send, *sbuf),
                Argument::I32(Int::Count(Side::Send), *scount),
                Argument::Handle(Handle::Datatype(Side::Send), *stype),
                Argument::Buffer(Side::Receive, *rbuf),
                Argument::I32(Int::Count(Side::Receive), *rcount),
                Argument::Handle(Handle::Datatype(Side::Receive), *rtype),
                Argument::I32(Int::Root, *root),
                Argument::Handle(Handle::Comm, *comm),
            ]),
            Started::Iallgather {
                in_place,
                sbuf,
                scount,
                stype,
                rbuf,
                rcount,
                rtype,
                comm,
                ..
            } => listed(&[
                Argument::Bit(Flag::InPlace, *in_place),
                Argument::Buffer(Side::Send, *sbuf),
                Argument::I32(Int::Count(Side::Send), *scount),
                Argument::Handle(Handle::Datatype(Side::Send), *stype),
                Argument::Buffer(Side::Receive, *rbuf),
                Argument::I32(Int::Count(Side::Receive), *rcount),
                Argument::Handle(Handle::Datatype(Side::Receive), *rtype),
                Argument::Handle(Handle::Comm, *comm),
            ]),
            Started::Ialltoall {
                in_place,
                sbuf,
                scount,
                stype,
                rbuf,
                rcount,
                rtype,
                comm,
                ..
            } => listed(&[
                Argument::Bit(Flag::InPlace, *in_place),
                Argument::Buffer(Side::Send, *sbuf),
                Argument::I32(Int::Count(Side::Send), *scount),
                Argument::Handle(Handle::Datatype(Side::Send), *stype),
                Argument::Buffer(Side::Receive, *rbuf),
                Argument::I32(Int::Count(Side::Receive), *rcount),
                Argument::Handle(Handle::Datatype(Side::Receive), *rtype),
                Argument::Handle(Handle::Comm, *comm),
            ]),
            Started::Ireduce {
                in_place,
                sbuf,
                rbuf,
                count,
                dtype,
                op,
                root,
                comm,
                ..
            } => listed(&[
                Argument::Bit(Flag::InPlace, *in_place),
                Argument::Buffer(Side::Send, *sbuf),
                Argument::Buffer(Side::Receive, *rbuf),
                Argument::I32(Int::Count(Side::Both), *count),
                Argument::Handle(Handle::Datatype(Side::Both), *dtype),
                Argument::Handle(Handle::Operation, *op),
                Argument::I32(Int::Root, *root),
                Argument::Handle(Handle::Comm, *comm),
            ]),
            Started::Iallreduce {
                in_place,
                sbuf,
                rbuf,
                count,
                dtype,
                op,
                comm,
                ..
            } => listed(&[
                Argument::Bit(Flag::InPlace, *in_place),
                Argument::Buffer(Side::Send, *sbuf),
                Argument::Buffer(Side::Receive, *rbuf),
                Argument::I32(Int::Count(Side::Both), *count),
                Argument::Handle(Handle::Datatype(Side::Both), *dtype),
                Argument::Handle(Handle::Operation, *op),
                Argument::Handle(Handle::Comm, *comm),
            ]),
        }
    }

    /// The outputs, where they stand.
    pub fn given(&self) -> Option<Given<'_>>
        ensures { option_map output_seen result ≡ given_of (body.Started self.now) }
    {
        match self {
            Started::Ibarrier { request, .. }
            | Started::Ibcast { request, .. }
            | Started::Igather { request, .. }
            | Started::Iallgather { request, .. }
            | Started::Ialltoall { request, .. }
            | Started::Ireduce { request, .. }
            | Started::Iallreduce { request, .. } => given_made(Class::Request, request),
        }
    }
}
