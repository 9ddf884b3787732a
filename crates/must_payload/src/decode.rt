//! The call of a record.

mod collective;
mod derive;
mod finish;
mod frame;
mod object;
mod persist;
mod point;
mod started;

ghost use Rattle.std.specs.Prelude.{◌≡◌, IfOk};
ghost use Rattle.must_format.specs.Decoding.{body_at};

use must_base::NoMemory;
use must_call::{Body, Kind};
use std::alloc::Global;

/// The kind and fields of the call with this payload. Bytes that are missing count as zeros.
pub fn read_payload(
    alloc: Global,
    kind: Kind,
    returned: bool,
    payload: &[u8],
) -> Result<Body, NoMemory>
    ensures { IfOk result (λ body. body ≡ body_at kind returned payload.now) }
{
    let body = match kind {
        Kind::Init => frame::init(returned, payload),
        Kind::Finalize => frame::finalize(returned, payload),
        Kind::Send => point::send(returned, payload),
        Kind::Ssend => point::ssend(returned, payload),
        Kind::Bsend => point::bsend(returned, payload),
        Kind::Rsend => point::rsend(returned, payload),
        Kind::Recv => point::recv(returned, payload),
        Kind::Sendrecv => point::sendrecv(returned, payload),
        Kind::Probe => point::probe(returned, payload),
        Kind::Iprobe => point::iprobe(returned, payload),
        Kind::Isend => point::isend(returned, payload),
        Kind::Issend => point::issend(returned, payload),
        Kind::Ibsend => point::ibsend(returned, payload),
        Kind::Irsend => point::irsend(returned, payload),
        Kind::Irecv => point::irecv(returned, payload),
        Kind::Wait => finish::wait(returned, payload),
        Kind::Waitall => return finish::waitall(alloc, returned, payload),
        Kind::Waitany => return finish::waitany(alloc, returned, payload),
        Kind::Waitsome => return finish::waitsome(alloc, returned, payload),
        Kind::Test => finish::test(returned, payload),
        Kind::Testall => return finish::testall(alloc, returned, payload),
        Kind::Testany => return finish::testany(alloc, returned, payload),
        Kind::Testsome => return finish::testsome(alloc, returned, payload),
        Kind::RequestFree => finish::request_free(returned, payload),
        Kind::Cancel => finish::cancel(returned, payload),
        Kind::TypeContiguous => derive::type_contiguous(returned, payload),
        Kind::TypeVector => derive::type_vector(returned, payload),
        Kind::TypeHvector => derive::type_hvector(returned, payload),
        Kind::TypeIndexed => return derive::type_indexed(alloc, returned, payload),
        Kind::TypeHindexed => return derive::type_hindexed(alloc, returned, payload),
        Kind::TypeIndexedBlock => return derive::type_indexed_block(alloc, returned, payload),
        Kind::TypeHindexedBlock => return derive::type_hindexed_block(alloc, returned, payload),
        Kind::TypeStruct => return derive::type_struct(alloc, returned, payload),
        Kind::TypeDup => derive::type_dup(returned, payload),
        Kind::TypeResized => derive::type_resized(returned, payload),
        Kind::TypeSubarray => return derive::type_subarray(alloc, returned, payload),
        Kind::TypeCommit => derive::type_commit(returned, payload),
        Kind::TypeFree => derive::type_free(returned, payload),
        Kind::OpCreate => object::op_create(returned, payload),
        Kind::OpFree => object::op_free(returned, payload),
        Kind::CommGroup => object::comm_group(returned, payload),
        Kind::GroupIncl => return object::group_incl(alloc, returned, payload),
        Kind::GroupExcl => return object::group_excl(alloc, returned, payload),
        Kind::GroupUnion => object::group_union(returned, payload),
        Kind::GroupIntersection => object::group_intersection(returned, payload),
        Kind::GroupDifference => object::group_difference(returned, payload),
        Kind::GroupFree => object::group_free(returned, payload),
        Kind::CommDup => return object::comm_dup(alloc, returned, payload),
        Kind::CommSplit => return object::comm_split(alloc, returned, payload),
        Kind::CommCreate => return object::comm_create(alloc, returned, payload),
        Kind::CommFree => object::comm_free(returned, payload),
        Kind::Barrier => collective::barrier(returned, payload),
        Kind::Bcast => collective::bcast(returned, payload),
        Kind::Gather => collective::gather(returned, payload),
        Kind::Gatherv => return collective::gatherv(alloc, returned, payload),
        Kind::Scatter => collective::scatter(returned, payload),
        Kind::Scatterv => return collective::scatterv(alloc, returned, payload),
        Kind::Allgather => collective::allgather(returned, payload),
        Kind::Allgatherv => return collective::allgatherv(alloc, returned, payload),
        Kind::Alltoall => collective::alltoall(returned, payload),
        Kind::Alltoallv => return collective::alltoallv(alloc, returned, payload),
        Kind::Reduce => collective::reduce(returned, payload),
        Kind::Allreduce => collective::allreduce(returned, payload),
        Kind::ReduceScatter => return collective::reduce_scatter(alloc, returned, payload),
        Kind::ReduceScatterBlock => collective::reduce_scatter_block(returned, payload),
        Kind::Scan => collective::scan(returned, payload),
        Kind::Exscan => collective::exscan(returned, payload),
        Kind::SendInit => persist::send_init(returned, payload),
        Kind::SsendInit => persist::ssend_init(returned, payload),
        Kind::RecvInit => persist::recv_init(returned, payload),
        Kind::Start => persist::start(returned, payload),
        Kind::Startall => return persist::startall(alloc, returned, payload),
        Kind::Ibarrier => started::ibarrier(returned, payload),
        Kind::Ibcast => started::ibcast(returned, payload),
        Kind::Igather => started::igather(returned, payload),
        Kind::Iallgather => started::iallgather(returned, payload),
        Kind::Ialltoall => started::ialltoall(returned, payload),
        Kind::Ireduce => started::ireduce(returned, payload),
        Kind::Iallreduce => started::iallreduce(returned, payload),
    };
    Ok(body)
}
