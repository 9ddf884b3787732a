//! The first difference of two lists that are repeated, over a stretch.

ghost use Rattle.std.specs.Prelude.{◌≡◌, ◌+◌, ◌*◌, ◌<◌, ◌≤◌, ◌^◌, ◌↔◌, length, Some, None, IsTrue};
ghost use Rattle.std.specs.Option.{IfSome};
ghost use Rattle.must_call.specs.Basics.{number_of_basic};
ghost use Rattle.must_sig.specs.Signatures.{laid, repeated, unlike};
ghost use Rattle.must_sig.specs.Runs.{AreRuns};
ghost use Rattle.must_sig.specs.Places.{AgreeBelow};

use crate::place::{Place, pass, start};
use crate::run::Run;
use crate::steps::Steps;
use std::sync::ledger::Ledger;

/// One step: whether two pieces are of one basic type.
fn is_same<L: Ledger>(left: Place, right: Place, steps: &mut Steps<L>) -> bool
    ensures same { IsTrue result ↔ (number_of_basic left.basic ≡ number_of_basic right.basic) }
    ensures cost { steps.new ≡ steps.old + 1 }
{
    steps.tick();
    left.basic.number() == right.basic.number()
}

/// The first difference of two repeated lists, looked for over a stretch of both. Takes no memory.
pub(crate) fn first_unlike<L: Ledger>(
    a: &[Run],
    a_times: u128,
    b: &[Run],
    b_times: u128,
    stretch: u128,
    steps: &mut Steps<L>,
) -> Option<u128>
    requires a_runs { AreRuns a.now }
    requires b_runs { AreRuns b.now }
    requires a_long { a_times * length (laid a.now) < 2 ^ 128 }
    requires b_long { b_times * length (laid b.now) < 2 ^ 128 }
    requires a_within { stretch ≤ a_times * length (laid a.now) }
    requires b_within { stretch ≤ b_times * length (laid b.now) }
    ensures found { IfSome result (λ at. unlike (repeated a_times (laid a.now)) (repeated b_times (laid b.now)) ≡ Some at) }
    ensures none { result ≡ None → AgreeBelow stretch (repeated a_times (laid a.now)) (repeated b_times (laid b.now)) }
    ensures cost { steps.new ≤ steps.old + stretch }
{
    let mut at: u128 = 0;
    let mut left = start(a, a_times);
    let mut right = start(b, b_times);
    while at < stretch {
        let same = is_same(left, right, steps);
        if !same {
            return Some(at);
        }
        let n = left.left.min(right.left);
        left = pass(a, left, n);
        right = pass(b, right, n);
        at += n;
    }
    None
}
