//! Reading calls that make and start persistent requests (MPI 3.1 section 3.9).

ghost use Rattle.std.specs.Prelude.{◌≡◌, IfOk};
ghost use Rattle.must_format.specs.Decoding.{body_at};

use must_base::NoMemory;
use must_call::{Body, HandleList, Kind, Persist};
use must_value::Cursor;
use std::alloc::Global;

#[tactic(auto, unfolding(must_format::specs::Decoding::body_at))]
pub(crate) fn send_init(returned: bool, payload: &[u8]) -> Body
    ensures { result ≡ body_at Kind.SendInit returned payload.now }
{
    let mut fields = Cursor { rest: payload };
    Body::Persist(Persist::SendInit {
        buf: fields.u64(),
        count: fields.i32(),
        dtype: fields.u32(),
        dest: fields.i32(),
        tag: fields.i32(),
        comm: fields.u32(),
        request: fields.given_made(returned),
    })
}

#[tactic(auto, unfolding(must_format::specs::Decoding::body_at))]
pub(crate) fn ssend_init(returned: bool, payload: &[u8]) -> Body
    ensures { result ≡ body_at Kind.SsendInit returned payload.now }
{
    let mut fields = Cursor { rest: payload };
    Body::Persist(Persist::SsendInit {
        buf: fields.u64(),
        count: fields.i32(),
        dtype: fields.u32(),
        dest: fields.i32(),
        tag: fields.i32(),
        comm: fields.u32(),
        request: fields.given_made(returned),
    })
}

#[tactic(auto, unfolding(must_format::specs::Decoding::body_at))]
pub(crate) fn recv_init(returned: bool, payload: &[u8]) -> Body
    ensures { result ≡ body_at Kind.RecvInit returned payload.now }
{
    let mut fields = Cursor { rest: payload };
    Body::Persist(Persist::RecvInit {
        buf: fields.u64(),
        count: fields.i32(),
        dtype: fields.u32(),
        source: fields.i32(),
        tag: fields.i32(),
        comm: fields.u32(),
        request: fields.given_made(returned),
    })
}

#[tactic(auto, unfolding(must_format::specs::Decoding::body_at))]
pub(crate) fn start(_returned: bool, payload: &[u8]) -> Body
    ensures { result ≡ body_at Kind.Start _returned payload.now }
{
    let mut fields = Cursor { rest: payload };
    Body::Persist(Persist::Start {
        request: fields.u32(),
    })
}

#[tactic(auto, unfolding(must_format::specs::Decoding::body_at))]
pub(crate) fn startall(alloc: Global, _returned: bool, payload: &[u8]) -> Result<Body, NoMemory>
    ensures { IfOk result (λ call. call ≡ body_at Kind.Startall _returned payload.now) }
{
    let mut fields = Cursor { rest: payload };
    let requests = HandleList::from_vec(fields.list(alloc)?);
    Ok(Body::Persist(Persist::Startall { requests }))
}
