//! The payload of each kind, as a table. An arm has at most eight kinds, since the prover's search tires of longer ones.

ghost use Rattle.std.specs.Prelude.{◌≡◌};
ghost use Rattle.must_call.specs.Fields.{inputs, output};

use must_call::{Aint, Class, Field, Flag, Handle, Int, Ints, Item, Kind, Output, Side};

/// The fields that stand in each record of the kind.
pub fn inputs_of(kind: Kind) -> &'static [Field]
    ensures { result.now ≡ inputs kind }
{
    match kind {
        Kind::Init | Kind::Finalize => &[],
        Kind::Send
        | Kind::Ssend
        | Kind::Bsend
        | Kind::Rsend
        | Kind::Isend
        | Kind::Issend
        | Kind::Ibsend
        | Kind::Irsend => &[
            Field::Buffer(Side::Send),
            Field::I32(Int::Count(Side::Send)),
            Field::Handle(Handle::Datatype(Side::Send)),
            Field::I32(Int::Dest),
            Field::I32(Int::Tag(Side::Send)),
            Field::Handle(Handle::Comm),
        ],
        Kind::SendInit | Kind::SsendInit => &[
            Field::Buffer(Side::Send),
            Field::I32(Int::Count(Side::Send)),
            Field::Handle(Handle::Datatype(Side::Send)),
            Field::I32(Int::Dest),
            Field::I32(Int::Tag(Side::Send)),
            Field::Handle(Handle::Comm),
        ],
        Kind::Recv | Kind::Irecv | Kind::RecvInit => &[
            Field::Buffer(Side::Receive),
            Field::I32(Int::Count(Side::Receive)),
            Field::Handle(Handle::Datatype(Side::Receive)),
            Field::I32(Int::Source),
            Field::I32(Int::Tag(Side::Receive)),
            Field::Handle(Handle::Comm),
        ],
        Kind::Sendrecv => &[
            Field::Buffer(Side::Send),
            Field::I32(Int::Count(Side::Send)),
            Field::Handle(Handle::Datatype(Side::Send)),
            Field::I32(Int::Dest),
            Field::I32(Int::Tag(Side::Send)),
            Field::Buffer(Side::Receive),
            Field::I32(Int::Count(Side::Receive)),
            Field::Handle(Handle::Datatype(Side::Receive)),
            Field::I32(Int::Source),
            Field::I32(Int::Tag(Side::Receive)),
            Field::Handle(Handle::Comm),
        ],
        Kind::Probe | Kind::Iprobe => &[
            Field::I32(Int::Source),
            Field::I32(Int::Tag(Side::Receive)),
            Field::Handle(Handle::Comm),
        ],
        Kind::Wait | Kind::Test | Kind::RequestFree | Kind::Cancel | Kind::Start => &[Field::Handle(
            Handle::Request,
        )],
        Kind::Waitall
        | Kind::Waitany
        | Kind::Waitsome
        | Kind::Testall
        | Kind::Testany
        | Kind::Testsome
        | Kind::Startall => &[Field::Items(Item::Request)],
        Kind::TypeContiguous => &[Field::I32(Int::Copies), Field::Handle(Handle::Old)],
        Kind::TypeVector => &[
            Field::I32(Int::Copies),
            Field::I32(Int::Block),
            Field::I32(Int::Stride),
            Field::Handle(Handle::Old),
        ],
        Kind::TypeHvector => &[
            Field::I32(Int::Copies),
            Field::I32(Int::Block),
            Field::I64(Aint::Stride),
            Field::Handle(Handle::Old),
        ],
        Kind::TypeIndexed => &[Field::Items(Item::Block), Field::Handle(Handle::Old)],
        Kind::TypeHindexed => &[Field::Items(Item::ByteBlock), Field::Handle(Handle::Old)],
        Kind::TypeIndexedBlock => &[
            Field::I32(Int::Block),
            Field::Items(Item::Int(Ints::Displacements)),
            Field::Handle(Handle::Old),
        ],
        Kind::TypeHindexedBlock => &[
            Field::I32(Int::Block),
            Field::Items(Item::Aint),
            Field::Handle(Handle::Old),
        ],
        Kind::TypeStruct => &[Field::Items(Item::StructBlock)],
        Kind::TypeDup => &[Field::Handle(Handle::Old)],
        Kind::TypeResized => &[
            Field::I64(Aint::LowerBound),
            Field::I64(Aint::Extent),
            Field::Handle(Handle::Old),
        ],
        Kind::TypeSubarray => &[
            Field::Order,
            Field::Items(Item::Dim),
            Field::Handle(Handle::Old),
        ],
        Kind::TypeCommit | Kind::TypeFree => &[Field::Handle(Handle::Subject)],
        Kind::OpCreate => &[Field::Bit(Flag::Commute)],
        Kind::OpFree => &[Field::Handle(Handle::Operation)],
        Kind::CommGroup | Kind::CommDup | Kind::CommFree | Kind::Barrier | Kind::Ibarrier => &[
            Field::Handle(Handle::Comm),
        ],
        Kind::GroupIncl | Kind::GroupExcl => &[
            Field::Handle(Handle::Group),
            Field::Items(Item::Int(Ints::Ranks)),
        ],
        Kind::GroupUnion | Kind::GroupIntersection | Kind::GroupDifference => &[
            Field::Handle(Handle::Group),
            Field::Handle(Handle::Group),
        ],
        Kind::GroupFree => &[Field::Handle(Handle::Group)],
        Kind::CommSplit => &[
            Field::Handle(Handle::Comm),
            Field::I32(Int::Color),
            Field::I32(Int::Key),
        ],
        Kind::CommCreate => &[Field::Handle(Handle::Comm), Field::Handle(Handle::Group)],
        Kind::Bcast | Kind::Ibcast => &[
            Field::Buffer(Side::Both),
            Field::I32(Int::Count(Side::Both)),
            Field::Handle(Handle::Datatype(Side::Both)),
            Field::I32(Int::Root),
            Field::Handle(Handle::Comm),
        ],
        Kind::Gather | Kind::Scatter | Kind::Igather => &[
            Field::Bit(Flag::InPlace),
            Field::Buffer(Side::Send),
            Field::I32(Int::Count(Side::Send)),
            Field::Handle(Handle::Datatype(Side::Send)),
            Field::Buffer(Side::Receive),
            Field::I32(Int::Count(Side::Receive)),
            Field::Handle(Handle::Datatype(Side::Receive)),
            Field::I32(Int::Root),
            Field::Handle(Handle::Comm),
        ],
        Kind::Gatherv => &[
            Field::Bit(Flag::InPlace),
            Field::Buffer(Side::Send),
            Field::I32(Int::Count(Side::Send)),
            Field::Handle(Handle::Datatype(Side::Send)),
            Field::Buffer(Side::Receive),
            Field::Items(Item::Amount(Side::Receive)),
            Field::Handle(Handle::Datatype(Side::Receive)),
            Field::I32(Int::Root),
            Field::Handle(Handle::Comm),
        ],
        Kind::Scatterv => &[
            Field::Bit(Flag::InPlace),
            Field::Buffer(Side::Send),
            Field::Items(Item::Amount(Side::Send)),
            Field::Handle(Handle::Datatype(Side::Send)),
            Field::Buffer(Side::Receive),
            Field::I32(Int::Count(Side::Receive)),
            Field::Handle(Handle::Datatype(Side::Receive)),
            Field::I32(Int::Root),
            Field::Handle(Handle::Comm),
        ],
        Kind::Allgather | Kind::Alltoall | Kind::Iallgather | Kind::Ialltoall => &[
            Field::Bit(Flag::InPlace),
            Field::Buffer(Side::Send),
            Field::I32(Int::Count(Side::Send)),
            Field::Handle(Handle::Datatype(Side::Send)),
            Field::Buffer(Side::Receive),
            Field::I32(Int::Count(Side::Receive)),
            Field::Handle(Handle::Datatype(Side::Receive)),
            Field::Handle(Handle::Comm),
        ],
        Kind::Allgatherv => &[
            Field::Bit(Flag::InPlace),
            Field::Buffer(Side::Send),
            Field::I32(Int::Count(Side::Send)),
            Field::Handle(Handle::Datatype(Side::Send)),
            Field::Buffer(Side::Receive),
            Field::Items(Item::Amount(Side::Receive)),
            Field::Handle(Handle::Datatype(Side::Receive)),
            Field::Handle(Handle::Comm),
        ],
        Kind::Alltoallv => &[
            Field::Bit(Flag::InPlace),
            Field::Buffer(Side::Send),
            Field::Items(Item::Amount(Side::Send)),
            Field::Handle(Handle::Datatype(Side::Send)),
            Field::Buffer(Side::Receive),
            Field::Items(Item::Amount(Side::Receive)),
            Field::Handle(Handle::Datatype(Side::Receive)),
            Field::Handle(Handle::Comm),
        ],
        Kind::Reduce | Kind::Ireduce => &[
            Field::Bit(Flag::InPlace),
            Field::Buffer(Side::Send),
            Field::Buffer(Side::Receive),
            Field::I32(Int::Count(Side::Both)),
            Field::Handle(Handle::Datatype(Side::Both)),
            Field::Handle(Handle::Operation),
            Field::I32(Int::Root),
            Field::Handle(Handle::Comm),
        ],
        Kind::Allreduce | Kind::ReduceScatterBlock | Kind::Scan | Kind::Exscan | Kind::Iallreduce =>
            &[
                Field::Bit(Flag::InPlace),
                Field::Buffer(Side::Send),
                Field::Buffer(Side::Receive),
                Field::I32(Int::Count(Side::Both)),
                Field::Handle(Handle::Datatype(Side::Both)),
                Field::Handle(Handle::Operation),
                Field::Handle(Handle::Comm),
            ],
        Kind::ReduceScatter => &[
            Field::Bit(Flag::InPlace),
            Field::Buffer(Side::Send),
            Field::Buffer(Side::Receive),
            Field::Items(Item::Int(Ints::Counts)),
            Field::Handle(Handle::Datatype(Side::Both)),
            Field::Handle(Handle::Operation),
            Field::Handle(Handle::Comm),
        ],
    }
}

/// What stands behind them where the call returned.
pub fn output_of(kind: Kind) -> Option<Output>
    ensures { result ≡ output kind }
{
    match kind {
        Kind::Init
        | Kind::Finalize
        | Kind::Send
        | Kind::Ssend
        | Kind::Bsend
        | Kind::Rsend
        | Kind::RequestFree
        | Kind::Cancel => None,
        Kind::TypeCommit
        | Kind::TypeFree
        | Kind::OpFree
        | Kind::GroupFree
        | Kind::CommFree
        | Kind::Barrier
        | Kind::Bcast
        | Kind::Gather => None,
        Kind::Gatherv
        | Kind::Scatter
        | Kind::Scatterv
        | Kind::Allgather
        | Kind::Allgatherv
        | Kind::Alltoall
        | Kind::Alltoallv
        | Kind::Reduce => None,
        Kind::Allreduce
        | Kind::ReduceScatter
        | Kind::ReduceScatterBlock
        | Kind::Scan
        | Kind::Exscan
        | Kind::Start
        | Kind::Startall => None,
        Kind::Recv | Kind::Sendrecv | Kind::Probe | Kind::Wait => Some(Output::Status),
        Kind::Iprobe | Kind::Test => Some(Output::MaybeStatus),
        Kind::Isend
        | Kind::Issend
        | Kind::Ibsend
        | Kind::Irsend
        | Kind::Irecv
        | Kind::SendInit
        | Kind::SsendInit
        | Kind::RecvInit => Some(Output::Made(Class::Request)),
        Kind::Ibarrier
        | Kind::Ibcast
        | Kind::Igather
        | Kind::Iallgather
        | Kind::Ialltoall
        | Kind::Ireduce
        | Kind::Iallreduce => Some(Output::Made(Class::Request)),
        Kind::Waitall => Some(Output::Statuses),
        Kind::Waitany => Some(Output::Choice),
        Kind::Waitsome | Kind::Testsome => Some(Output::Completions),
        Kind::Testall => Some(Output::MaybeStatuses),
        Kind::Testany => Some(Output::MaybeChoice),
        Kind::TypeContiguous
        | Kind::TypeVector
        | Kind::TypeHvector
        | Kind::TypeIndexed
        | Kind::TypeHindexed
        | Kind::TypeIndexedBlock
        | Kind::TypeHindexedBlock
        | Kind::TypeStruct => Some(Output::Made(Class::Datatype)),
        Kind::TypeDup | Kind::TypeResized | Kind::TypeSubarray => Some(Output::Made(
            Class::Datatype,
        )),
        Kind::OpCreate => Some(Output::Made(Class::Operation)),
        Kind::CommGroup
        | Kind::GroupIncl
        | Kind::GroupExcl
        | Kind::GroupUnion
        | Kind::GroupIntersection
        | Kind::GroupDifference => Some(Output::Made(Class::Group)),
        Kind::CommDup | Kind::CommSplit | Kind::CommCreate => Some(Output::MadeComm),
    }
}
