//! The item of an operation, once it is known how the operation ended (docs/MESSAGES.md, "Message items").

ghost use Rattle.std.specs.Prelude.{◌≡◌, Option};
ghost use Rattle.std.specs.Option.{option_map, option_and_then};
ghost use Rattle.must_messages.specs.Asking.{envelope_seen};
ghost use Rattle.must_rules.specs.Statuses.{says_cancelled};
ghost use Rattle.must_messages.specs.MessageItems.{item_seen, no_wild, known_source, known_tag, probed_source, probed_tag, rank_at};
ghost use Rattle.must_hold.specs.Ended.{item_for, item_taken, item_sent, item_received, item_probed, item_ended, wild_for};

use crate::held::{End, Pending};
use must_call::{ANY_SOURCE, ANY_TAG, Place, Status3};
use must_messages::{Asked, Deed};
use must_p2p::{MsgItem, Side, Wild};

/// The status says so.
pub fn says_cancelled(status: Option<Status3>) -> bool
    ensures { result ≡ says_cancelled status }
{
    match status {
        Some(status) => status.cancelled,
        None => false,
    }
}

/// The world rank at a position of the communicator.
pub fn rank_at(asked: &Asked, position: i32) -> Option<u32>
    ensures { result ≡ rank_at (envelope_seen asked.now) position }
{
    match usize::try_from(position) {
        Ok(position) => asked.name.members().ranks().get(position).copied(),
        Err(_) => None,
    }
}

/// The world rank at a position, where there is one.
pub fn rank_of(asked: &Asked, position: Option<i32>) -> Option<u32>
    ensures { result ≡ option_and_then (rank_at (envelope_seen asked.now)) position }
{
    match position {
        Some(position) => rank_at(asked, position),
        None => None,
    }
}

/// The source that was named, or else the one that the status tells.
pub fn known_source(asked: &Asked, status: Option<Status3>) -> Option<i32>
    ensures { result ≡ known_source (envelope_seen asked.now) status }
{
    if asked.peer != ANY_SOURCE {
        return Some(asked.peer);
    }
    match status {
        Some(status) => Some(status.source),
        None => None,
    }
}

/// The tag that was named, or else the one that the status tells.
pub fn known_tag(asked: &Asked, status: Option<Status3>) -> Option<i32>
    ensures { result ≡ known_tag (envelope_seen asked.now) status }
{
    if asked.tag != ANY_TAG {
        return Some(asked.tag);
    }
    match status {
        Some(status) => Some(status.tag),
        None => None,
    }
}

/// The source of the message that a probe found, or else the one that it named.
pub fn probed_source(asked: &Asked, status: Option<Status3>) -> Option<i32>
    ensures { result ≡ probed_source (envelope_seen asked.now) status }
{
    match status {
        Some(status) => Some(status.source),
        None => known_source(asked, None),
    }
}

/// The tag of the message that a probe found, or else the one that it named.
pub fn probed_tag(asked: &Asked, status: Option<Status3>) -> Option<i32>
    ensures { result ≡ probed_tag (envelope_seen asked.now) status }
{
    match status {
        Some(status) => Some(status.tag),
        None => known_tag(asked, None),
    }
}

/// Which wildcards a receive named, and which call completed it.
fn wild_for(asked: &Asked, done: Option<u32>) -> Wild
    ensures { result ≡ wild_for (envelope_seen asked.now) done }
{
    let source = asked.peer == ANY_SOURCE;
    let tag = asked.tag == ANY_TAG;
    if source || tag {
        Wild { source, tag, done }
    } else {
        no_wild()
    }
}

fn no_wild() -> Wild
    ensures { result ≡ no_wild }
{
    Wild {
        source: false,
        tag: false,
        done: None,
    }
}

/// The item with this source, destination and tag.
fn item_for(
    rank: u32,
    pending: Pending,
    side: Side,
    wild: Wild,
    source: u32,
    dest: u32,
    tag: i32,
) -> MsgItem
    ensures { item_seen result ≡ item_for rank pending side wild source dest tag }
{
    let Pending {
        call,
        part,
        asked,
        ..
    } = pending;
    let Asked {
        name,
        comm,
        sig,
        ..
    } = asked;
    MsgItem {
        place: Place { rank, call },
        part,
        side,
        name,
        comm,
        source,
        dest,
        tag,
        sig,
        wild,
    }
}

/// The item of what takes a message with this source and this tag, where both are known.
fn item_taken(
    rank: u32,
    pending: Pending,
    side: Side,
    wild: Wild,
    source: Option<u32>,
    tag: Option<i32>,
) -> Option<MsgItem>
    ensures { option_map item_seen result ≡ item_taken rank pending side wild source tag }
{
    let Some(source) = source else {
        return None;
    };
    let Some(tag) = tag else {
        return None;
    };
    Some(item_for(rank, pending, side, wild, source, rank, tag))
}

/// The item of a send that isn't cancelled.
fn item_sent(rank: u32, pending: Pending) -> Option<MsgItem>
    ensures { option_map item_seen result ≡ item_sent rank pending }
{
    let dest = rank_at(&pending.asked, pending.asked.peer);
    let Some(dest) = dest else {
        return None;
    };
    let tag = pending.asked.tag;
    Some(item_for(rank, pending, Side::Send, no_wild(), rank, dest, tag))
}

/// The item of a receive that isn't cancelled and doesn't break S1.
fn item_received(rank: u32, pending: Pending, end: End) -> Option<MsgItem>
    ensures { option_map item_seen result ≡ item_received rank pending end }
{
    let source = known_source(&pending.asked, end.status);
    let source = rank_of(&pending.asked, source);
    let tag = known_tag(&pending.asked, end.status);
    let wild = wild_for(&pending.asked, end.done);
    item_taken(rank, pending, Side::Receive, wild, source, tag)
}

/// The item of a probe.
fn item_probed(rank: u32, pending: Pending, end: End) -> Option<MsgItem>
    ensures { option_map item_seen result ≡ item_probed rank pending end }
{
    let source = probed_source(&pending.asked, end.status);
    let source = rank_of(&pending.asked, source);
    let tag = probed_tag(&pending.asked, end.status);
    item_taken(rank, pending, Side::Probe, no_wild(), source, tag)
}

/// The item of an operation that ended so, where it has one.
pub fn item_ended(rank: u32, pending: Pending, end: End) -> Option<MsgItem>
    ensures { option_map item_seen result ≡ item_ended rank pending end pending.asked.deed }
{
    match pending.asked.deed {
        Deed::Send { .. } => {
            if says_cancelled(end.status) {
                return None;
            }
            item_sent(rank, pending)
        }
        Deed::Receive => {
            if says_cancelled(end.status) || end.breaks {
                return None;
            }
            item_received(rank, pending, end)
        }
        Deed::Probe => item_probed(rank, pending, end),
    }
}
