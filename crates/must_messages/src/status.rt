//! A status beside what was asked for: rule S1 (docs/MESSAGES.md, "S1 status contradicts arguments").

ghost use Rattle.std.specs.Prelude.{◌≡◌, length};
ghost use Rattle.must_messages.specs.Asking.{IsAsked, envelope_seen};
ghost use Rattle.must_rules.specs.Significant.{is_position};
ghost use Rattle.must_rules.specs.ArgumentRules.{is_tag};
ghost use Rattle.must_rules.specs.Statuses.{admits_source, admits_tag, contradiction, wrong_envelope};
ghost use Rattle.must_rules.specs.Operations.{Message};

use crate::asked::{Asked, Deed};
use must_call::{ANY_SOURCE, ANY_TAG, Status3};

/// Whether a position is one of so many.
fn is_position(members: usize, position: i32) -> bool
    ensures { result ≡ is_position members position }
{
    match usize::try_from(position) {
        Ok(position) => position < members,
        Err(_) => false,
    }
}

/// The source is the one that was named, if one was, and a position.
fn admits_source(asked: &Asked, source: i32) -> bool
    ensures { result ≡ admits_source (envelope_seen asked.now) source }
{
    (asked.peer == ANY_SOURCE || asked.peer == source)
        && is_position(asked.name.members().ranks().len(), source)
}

/// The tag is the one that was named, if one was, and from 0 to the greatest.
fn admits_tag(tag_ub: i32, asked: &Asked, tag: i32) -> bool
    ensures { result ≡ admits_tag tag_ub (envelope_seen asked.now) tag }
{
    (asked.tag == ANY_TAG || asked.tag == tag) && 0 <= tag && tag <= tag_ub
}

fn wrong_envelope(tag_ub: i32, asked: &Asked, status: Status3) -> Option<i32>
    ensures { result ≡ wrong_envelope tag_ub (envelope_seen asked.now) status }
{
    if !admits_source(asked, status.source) {
        Some(1)
    } else if !admits_tag(tag_ub, asked, status.tag) {
        Some(2)
    } else {
        None
    }
}

/// How the status of what was asked for contradicts it: 3 where it says cancelled and nobody asked to cancel it; of what isn't
/// cancelled, 1 where its source is wrong, else 2 where its tag is. The status of a send has neither.
pub fn contradiction(
    tag_ub: i32,
    asked: &Asked,
    asked_to_cancel: bool,
    status: Status3,
) -> Option<i32>
    ensures { (m : Message) → IsAsked asked.now m → result ≡ contradiction tag_ub m asked_to_cancel status }
{
    if status.cancelled {
        return if asked_to_cancel { None } else { Some(3) };
    }
    match asked.deed {
        Deed::Send { .. } => None,
        Deed::Receive | Deed::Probe => wrong_envelope(tag_ub, asked, status),
    }
}
