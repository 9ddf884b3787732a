//! What a match breaks, and what an item without one does.

ghost use Rattle.std.specs.Prelude.{◌≡◌, ◌<◌};
ghost use Rattle.must_p2p.specs.MessageRules.{fit_of, lone};
ghost use Rattle.must_p2p.specs.Queues.{pair_breaks, pair_matches_as};
ghost use Rattle.must_p2p.specs.FitLaws.{IsShort};

use crate::matched::Matched;
use crate::side::Side;
use crate::waiting::Waiting;
use must_find::{Finding, Rule};
use must_sig::{Fit, Sig, Steps, compare};
use std::marker::Brand;
use std::sync::ledger::{Blank, Ledger};

/// Compares two signatures, on a ledger of steps that nobody reads.
#[tactic(auto, unfolding(crate::specs::MessageRules::fit_of))]
fn fit_on<L: Ledger>(blank: Blank, sent: &Sig, received: &Sig) -> Fit
    requires name { blank.name ≡ L.name }
    requires parts { blank.parts ≡ L.parts }
    requires some { 0 < blank.parts }
    ensures value { result ≡ fit_of sent.now received.now }
    ensures short { IsShort result }
{
    let _ = received.len();
    let mut steps = Steps::new(blank);
    compare::<L>(sent, received, &mut steps)
}

/// How what is sent fits what is received.
fn fit(sent: &Sig, received: &Sig) -> Fit
    ensures value { result ≡ fit_of sent.now received.now }
    ensures short { IsShort result }
{
    fit_on::<Brand>(Blank::new(1), sent, received)
}

/// What the send and the receive of a match break.
pub(crate) fn judge_match(send: &Waiting, receive: &Waiting) -> Option<Finding>
    ensures { result ≡ pair_breaks (send.now, receive.now) }
{
    let (rule, at) = match fit(&send.sig, &receive.sig) {
        Fit::Fits => return None,
        Fit::Differs { at } => (Rule::M1, at),
        Fit::TooLong { at } => (Rule::M2, at),
    };
    Some(Finding {
        rank: receive.place.rank,
        call: receive.place.call,
        rule,
        part: receive.part,
        see: Some(send.place),
        value: at as i128,
    })
}

/// What an item of this side without a match breaks.
pub(crate) fn judge_lone(side: Side, item: &Waiting) -> Option<Finding>
    ensures { result ≡ lone side item.now.place item.now.part }
{
    let rule = match side {
        Side::Send => Rule::M3,
        Side::Receive => Rule::M4,
        Side::Probe => return None,
    };
    Some(Finding {
        rank: item.place.rank,
        call: item.place.call,
        rule,
        part: item.part,
        see: None,
        value: 0,
    })
}

/// The places of a match.
pub(crate) fn matched_of(send: &Waiting, receive: &Waiting) -> Matched
    ensures { result ≡ pair_matches_as (send.now, receive.now) }
{
    Matched {
        send: send.place,
        send_part: send.part,
        recv: receive.place,
        recv_part: receive.part,
    }
}
