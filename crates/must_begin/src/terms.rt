//! What the fields of a call say of a message.

ghost use Rattle.std.specs.Prelude.{◌≡◌};
ghost use Rattle.must_call.specs.declared.field.Side.TheVariants as side;
ghost use Rattle.must_call.specs.declared.field.Field.TheVariants as field;
ghost use Rattle.must_call.specs.Kinds.{kind_of};
ghost use Rattle.must_call.specs.Bodies.{inputs_of};
ghost use Rattle.must_rules.specs.Breaches.{sends, part_in};
ghost use Rattle.must_messages.specs.Asking.{mode_seen};
ghost use Rattle.must_rules.specs.Operations.{send_mode, waits_for_probe};
ghost use Rattle.must_begin.specs.Terms.{terms_of, probed_of};

use must_call::{Body, Collective, Kind, Persist, Point, Started};
use must_messages::Mode;

/// What a side of a call sends or receives: elements of a datatype, and the other end and the tag, as they were named.
#[derive(Clone, Copy, Drop)]
pub(crate) struct Terms {
    /// 1 for what is received where the call sends too, else 0.
    pub part: u32,
    pub peer: i32,
    pub tag: i32,
    pub count: i32,
    pub dtype: u32,
}

/// What a probe names.
#[derive(Clone, Copy, Drop)]
pub(crate) struct Probed {
    pub source: i32,
    pub tag: i32,
}

/// What a call sends to another rank.
pub(crate) fn sent_terms(body: &Body) -> Option<Terms>
    ensures { result ≡ terms_of body.now side.Send }
{
    match body {
        Body::Point(
            Point::Send {
                count,
                dtype,
                dest,
                tag,
                ..
            }
            | Point::Ssend {
                count,
                dtype,
                dest,
                tag,
                ..
            }
            | Point::Bsend {
                count,
                dtype,
                dest,
                tag,
                ..
            }
            | Point::Rsend {
                count,
                dtype,
                dest,
                tag,
                ..
            }
            | Point::Isend {
                count,
                dtype,
                dest,
                tag,
                ..
            }
            | Point::Issend {
                count,
                dtype,
                dest,
                tag,
                ..
            }
            | Point::Ibsend {
                count,
                dtype,
                dest,
                tag,
                ..
            }
            | Point::Irsend {
                count,
                dtype,
                dest,
                tag,
                ..
            }
            | Point::Sendrecv {
                scount: count,
                stype: dtype,
                dest,
                stag: tag,
                ..
            },
        )
        | Body::Persist(
            Persist::SendInit {
                count,
                dtype,
                dest,
                tag,
                ..
            }
            | Persist::SsendInit {
                count,
                dtype,
                dest,
                tag,
                ..
            },
        ) => Some(Terms {
            part: 0,
            peer: *dest,
            tag: *tag,
            count: *count,
            dtype: *dtype,
        }),
        _ => None,
    }
}

/// What a call receives from another rank.
pub(crate) fn taken_terms(body: &Body) -> Option<Terms>
    ensures { result ≡ terms_of body.now side.Receive }
{
    match body {
        Body::Point(
            Point::Recv {
                count,
                dtype,
                source,
                tag,
                ..
            }
            | Point::Irecv {
                count,
                dtype,
                source,
                tag,
                ..
            },
        )
        | Body::Persist(
            Persist::RecvInit {
                count,
                dtype,
                source,
                tag,
                ..
            },
        ) => Some(Terms {
            part: 0,
            peer: *source,
            tag: *tag,
            count: *count,
            dtype: *dtype,
        }),
        Body::Point(
            Point::Sendrecv {
                rcount,
                rtype,
                source,
                rtag,
                ..
            },
        ) => Some(Terms {
            part: 1,
            peer: *source,
            tag: *rtag,
            count: *rcount,
            dtype: *rtype,
        }),
        _ => None,
    }
}

/// What a probe names.
pub(crate) fn probe_terms(body: &Body) -> Option<Probed>
    ensures { result ≡ probed_of body.now }
{
    match body {
        Body::Point(Point::Probe { source, tag, .. } | Point::Iprobe { source, tag, .. }) => Some(
            Probed {
                source: *source,
                tag: *tag,
            },
        ),
        _ => None,
    }
}

/// Whether a call is `MPI_Probe`, which waits for its message.
pub(crate) fn waits_for_probe(body: &Body) -> bool
    ensures { result ≡ waits_for_probe (kind_of body.now) }
{
    matches!(body, Body::Point(Point::Probe { .. }))
}

/// The mode of a send (MPI 3.1 section 3.4).
pub(crate) fn mode_of(kind: Kind) -> Mode
    ensures { mode_seen result ≡ send_mode kind }
{
    match kind {
        Kind::Bsend | Kind::Ibsend => Mode::Buffered,
        Kind::Ssend | Kind::Issend | Kind::SsendInit => Mode::Synchronous,
        Kind::Rsend | Kind::Irsend => Mode::Ready,
        _ => Mode::Standard,
    }
}

/// Whether a call sends.
fn sends(body: &Body) -> bool
    ensures { result ≡ sends (inputs_of body.now) }
{
    match body {
        Body::Point(
            Point::Recv { .. } | Point::Irecv { .. } | Point::Probe { .. } | Point::Iprobe { .. },
        )
        | Body::Collective(Collective::Barrier { .. } | Collective::Bcast { .. })
        | Body::Started(Started::Ibarrier { .. } | Started::Ibcast { .. }) => false,
        Body::Point(_)
        | Body::Collective(_)
        | Body::Started(_)
        | Body::Persist(Persist::SendInit { .. } | Persist::SsendInit { .. }) => true,
        _ => false,
    }
}

/// The part of what a call receives: 1 where it sends too.
pub(crate) fn taken_part(body: &Body) -> u32
    ensures { result ≡ part_in body.now (field.Buffer side.Receive) }
{
    if sends(body) { 1 } else { 0 }
}
