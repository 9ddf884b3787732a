//! Reading starts of collective calls (MPI 3.1 section 5.12).

ghost use Rattle.std.specs.Prelude.{◌≡◌};
ghost use Rattle.must_format.specs.Decoding.{body_at};

use must_call::{Body, Kind, Started};
use must_value::Cursor;

#[tactic(auto, unfolding(must_format::specs::Decoding::body_at))]
pub(crate) fn ibarrier(returned: bool, payload: &[u8]) -> Body
    ensures { result ≡ body_at Kind.Ibarrier returned payload.now }
{
    let mut fields = Cursor { rest: payload };
    Body::Started(Started::Ibarrier {
        comm: fields.u32(),
        request: fields.given_made(returned),
    })
}

#[tactic(auto, unfolding(must_format::specs::Decoding::body_at))]
pub(crate) fn ibcast(returned: bool, payload: &[u8]) -> Body
    ensures { result ≡ body_at Kind.Ibcast returned payload.now }
{
    let mut fields = Cursor { rest: payload };
    Body::Started(Started::Ibcast {
        buf: fields.u64(),
        count: fields.i32(),
        dtype: fields.u32(),
        root: fields.i32(),
        comm: fields.u32(),
        request: fields.given_made(returned),
    })
}

#[tactic(auto, unfolding(must_format::specs::Decoding::body_at))]
pub(crate) fn igather(returned: bool, payload: &[u8]) -> Body
    ensures { result ≡ body_at Kind.Igather returned payload.now }
{
    let mut fields = Cursor { rest: payload };
    Body::Started(Started::Igather {
        in_place: fields.bit(),
        sbuf: fields.u64(),
        scount: fields.i32(),
        stype: fields.u32(),
        rbuf: fields.u64(),
        rcount: fields.i32(),
        rtype: fields.u32(),
        root: fields.i32(),
        comm: fields.u32(),
        request: fields.given_made(returned),
    })
}

#[tactic(auto, unfolding(must_format::specs::Decoding::body_at))]
pub(crate) fn iallgather(returned: bool, payload: &[u8]) -> Body
    ensures { result ≡ body_at Kind.Iallgather returned payload.now }
{
    let mut fields = Cursor { rest: payload };
    Body::Started(Started::Iallgather {
        in_place: fields.bit(),
        sbuf: fields.u64(),
        scount: fields.i32(),
        stype: fields.u32(),
        rbuf: fields.u64(),
        rcount: fields.i32(),
        rtype: fields.u32(),
        comm: fields.u32(),
        request: fields.given_made(returned),
    })
}

#[tactic(auto, unfolding(must_format::specs::Decoding::body_at))]
pub(crate) fn ialltoall(returned: bool, payload: &[u8]) -> Body
    ensures { result ≡ body_at Kind.Ialltoall returned payload.now }
{
    let mut fields = Cursor { rest: payload };
    Body::Started(Started::Ialltoall {
        in_place: fields.bit(),
        sbuf: fields.u64(),
        scount: fields.i32(),
        stype: fields.u32(),
        rbuf: fields.u64(),
        rcount: fields.i32(),
        rtype: fields.u32(),
        comm: fields.u32(),
        request: fields.given_made(returned),
    })
}

#[tactic(auto, unfolding(must_format::specs::Decoding::body_at))]
pub(crate) fn ireduce(returned: bool, payload: &[u8]) -> Body
    ensures { result ≡ body_at Kind.Ireduce returned payload.now }
{
    let mut fields = Cursor { rest: payload };
    Body::Started(Started::Ireduce {
        in_place: fields.bit(),
        sbuf: fields.u64(),
        rbuf: fields.u64(),
        count: fields.i32(),
        dtype: fields.u32(),
        op: fields.u32(),
        root: fields.i32(),
        comm: fields.u32(),
        request: fields.given_made(returned),
    })
}

#[tactic(auto, unfolding(must_format::specs::Decoding::body_at))]
pub(crate) fn iallreduce(returned: bool, payload: &[u8]) -> Body
    ensures { result ≡ body_at Kind.Iallreduce returned payload.now }
{
    let mut fields = Cursor { rest: payload };
    Body::Started(Started::Iallreduce {
        in_place: fields.bit(),
        sbuf: fields.u64(),
        rbuf: fields.u64(),
        count: fields.i32(),
        dtype: fields.u32(),
        op: fields.u32(),
        comm: fields.u32(),
        request: fields.given_made(returned),
    })
}
