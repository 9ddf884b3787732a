//! What comes at a place of a stream.

ghost use Rattle.std.specs.Prelude.{◌≡◌, ◌≤◌, ◌<◌, ◌+◌, ◌-◌, ◌∷◌, ◌++◌, [], List, ℕ, Bool, Ok, Some, min, not, ◌||◌, cond, take, length};
ghost use Rattle.must_call.specs.declared.call.Call.{Call};
ghost use Rattle.must_call.specs.declared.constants.TheConstants.{FIRST_MADE};
ghost use Rattle.must_format.specs.declared.limits.TheConstants.{MOST_RANKS, RUN_CALLS};
ghost use Rattle.must_format.specs.Payload.{record_length};
ghost use Rattle.must_format.specs.Judging.{whole};
ghost use Rattle.must_format.specs.Decoding.{call_at};
ghost use Rattle.must_format.specs.Record.{front};
ghost use Rattle.must_format.specs.Stream.{byte_limit, coming_call, room_behind, gives_none as gives_none_of, is_spare as is_spare_of, is_due as is_due_of, is_made};
ghost use Rattle.must_record.specs.Views.{seen, HasLen};
ghost use Rattle.must_codec.specs.Reader.{IsPlace};
ghost use Rattle.must_codec.specs.Views.{coming_seen, IsWithin, Says};

use must_call::{Class, FIRST_MADE, GROUP_EMPTY, Kind, NULL_HANDLE};
use must_format::{Cause, Header, Limit, RUN_BYTES, RUN_CALLS, StreamFault, StreamPlace};
use must_record::{CallView, Step, read_record};

/// The most bytes of a stream in a run of so many ranks.
pub(crate) fn byte_limit_of(size: u32) -> u32
    requires { 0 < size }
    ensures { result ≡ byte_limit size }
{
    RUN_BYTES / size
}

/// What comes at a place: a call, the end of the stream, or a refusal; or nothing can be said yet.
#[derive(Drop)]
pub(crate) enum Arrival<'a> {
    Next(CallView<'a>),
    Done,
    Stop(StreamFault),
    Short,
}

fn malformed<'a>(at: u64, cause: Cause) -> Arrival<'a>
    ensures { result ≡ Arrival.Stop (StreamFault.Malformed at cause) }
{
    Arrival::Stop(StreamFault::Malformed { at, cause })
}

fn bound<'a>(at: u64, limit: Limit) -> Arrival<'a>
    ensures { result ≡ Arrival.Stop (StreamFault.Bound at limit) }
{
    Arrival::Stop(StreamFault::Bound { at, limit })
}

/// Whether the kind gives some ranks no communicator.
fn gives_none(kind: Kind) -> bool
    ensures { result ≡ gives_none_of kind }
{
    match kind {
        Kind::CommSplit | Kind::CommCreate => true,
        _ => false,
    }
}

/// Whether the handle takes no new number.
fn is_spare(kind: Kind, class: Class, handle: u32) -> bool
    ensures { result ≡ is_spare_of kind class handle }
{
    match class {
        Class::Comm => gives_none(kind) && handle == NULL_HANDLE,
        Class::Group => handle == GROUP_EMPTY,
        Class::Datatype | Class::Operation | Class::Request => false,
    }
}

/// Whether a call of the kind may have made this, where the next handle has this number.
fn is_due(next: u32, kind: Kind, made: Option<(Class, u32)>) -> bool
    ensures { result ≡ is_due_of next kind made }
{
    match made {
        None => true,
        Some((class, handle)) => handle == next || is_spare(kind, class, handle),
    }
}

/// How many new numbers the handle took: one, but for a handle that is none or the empty group.
fn handles_made(made: Option<(Class, u32)>) -> u32
    ensures { result ≡ cond (is_made made) 1 0 }
{
    match made {
        None => 0,
        Some((_, handle)) => { if handle < FIRST_MADE { 0 } else { 1 } }
    }
}

/// The call, or why it may not stand behind those before it.
#[tactic(auto, unfolding(must_format::specs::Stream::coming_call))]
fn judge_call(header: Header, place: StreamPlace, view: CallView<'_>) -> Arrival<'_>
    requires size { (0 < header.size) × (header.size ≤ MOST_RANKS) }
    requires rank { header.rank < header.size }
    ensures exact { (given : List Call) → IsPlace place given
        → coming_seen result ≡ Some (coming_call header.rank header.size given (call_at view.entry.kind view.entry.returned view.entry.payload.now)) }
    ensures within { (ended : Bool) (behind : ℕ) → 6 + length view.entry.payload.now ≤ behind → place.at + (6 + length view.entry.payload.now) ≤ byte_limit header.size
        → IsWithin result place header ended behind }
{
    if place.stuck {
        return malformed(place.at, Cause::AfterUnreturned);
    }
    if place.number >= RUN_CALLS / header.size {
        return bound(place.at, Limit::Calls);
    }
    if !is_due(place.next_handle, view.kind, view.made()) {
        return malformed(place.at, Cause::HandleNumber);
    }
    if !view.members_stand(header.rank, header.size) {
        return malformed(place.at, Cause::Members);
    }
    Arrival::Next(view)
}

/// What comes at a place with this step over the bytes at hand, where so many bytes stand there and so many of them may lie
/// within the byte limit. `ended` says that no more will come.
fn arrival_of(
    header: Header,
    place: StreamPlace,
    behind: usize,
    room: usize,
    ended: bool,
    step: Step<'_>,
) -> Arrival<'_>
    requires size { (0 < header.size) × (header.size ≤ MOST_RANKS) }
    requires rank { header.rank < header.size }
    requires at { place.at ≤ byte_limit header.size }
    requires room { room ≡ byte_limit header.size - place.at }
    requires len { HasLen step (min behind room) }
    ensures exact { (given : List Call) → IsPlace place given → Says (coming_seen result) ended header given behind room (seen step.entry) }
    ensures within { IsWithin result place header ended behind }
{
    match step {
        Step::Bad(cause) => malformed(place.at, cause),
        Step::More => {
            if room < behind {
                bound(place.at, Limit::Bytes)
            } else if ended {
                malformed(place.at, Cause::Truncated)
            } else {
                Arrival::Short
            }
        }
        Step::Whole { call, len: _ } => judge_call(header, place, call),
        Step::End { calls, len: _ } => {
            if calls != place.number {
                malformed(place.at, Cause::EndCount)
            } else if behind > 10 {
                malformed(place.at + 10, Cause::AfterEnd)
            } else if ended {
                Arrival::Done
            } else {
                Arrival::Short
            }
        }
    }
}

/// The bytes that lie within the byte limit, and how many may.
fn at_hand(size: u32, at: u64, bytes: &[u8]) -> (&[u8], usize)
    requires { 0 < size }
    ensures room { result.1 ≡ byte_limit size - at }
    ensures bytes { result.0.now ≡ take (byte_limit size - at) bytes.now }
    ensures few { length result.0.now ≡ min (length bytes.now) result.1 }
{
    let room = u64::from(byte_limit_of(size)).saturating_sub(at) as usize;
    if room < bytes.len() {
        let (hand, _) = bytes.split_at(room);
        (hand, room)
    } else {
        (bytes, room)
    }
}

/// What comes at a place, where these bytes stand. `ended` says that no more will come.
pub(crate) fn arrival_at(
    header: Header,
    place: StreamPlace,
    bytes: &[u8],
    ended: bool,
) -> Arrival<'_>
    requires size { (0 < header.size) × (header.size ≤ MOST_RANKS) }
    requires rank { header.rank < header.size }
    requires at { place.at ≤ byte_limit header.size }
    ensures exact { (given : List Call) → IsPlace place given
        → Says (coming_seen result) ended header given (length bytes.now) (room_behind header given) (front header.version (take (room_behind header given) bytes.now)) }
    ensures within { IsWithin result place header ended (length bytes.now) }
{
    let (hand, room) = at_hand(header.size, place.at, bytes);
    let step = read_record(header.version, hand);
    arrival_of(header, place, bytes.len(), room, ended, step)
}

/// The place behind the record of this call.
pub(crate) fn place_behind(place: StreamPlace, view: &CallView<'_>) -> StreamPlace
    requires at { place.at ≤ 536870912 }
    requires number { place.number < RUN_CALLS }
    requires next { place.next_handle ≤ FIRST_MADE + place.number }
    ensures place { (given : List Call) → IsPlace place given → IsPlace result (given ++ call_at view.now.kind view.now.returned view.now.payload.now ∷ []) }
    ensures at { result.at ≡ place.at + (6 + length view.now.payload.now) }
    ensures number { result.number ≡ place.number + 1 }
    ensures next { result.next_handle ≤ FIRST_MADE + result.number }
{
    StreamPlace {
        at: place.at + length_of(view.kind, view.returned, view.payload),
        number: place.number + 1,
        next_handle: place.next_handle + handles_made(view.made()),
        stuck: stuck_behind(place.stuck, view.returned),
    }
}

/// The length of the record of a call with this payload.
fn length_of(kind: Kind, returned: bool, payload: &[u8]) -> u64
    requires good { whole kind returned payload.now ≡ Ok tt }
    ensures record { result ≡ record_length (call_at kind returned payload.now) }
    ensures payload { result ≡ 6 + length payload.now }
{
    6 + payload.len() as u64
}

/// Whether a call behind one that returned, or not, comes behind one that didn't.
fn stuck_behind(stuck: bool, returned: bool) -> bool
    ensures { result ≡ (stuck || not returned) }
{
    stuck || !returned
}
