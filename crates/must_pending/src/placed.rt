//! Operations with the ends of their addresses.

ghost use Rattle.std.specs.Prelude.{◌≡◌, [], ◌∷◌};
ghost use Rattle.must_span.specs.Ranges.{AreApart};
ghost use Rattle.must_pending.specs.Clashes.{IsFirst};
ghost use Rattle.must_pending.specs.Groups.{AreWithin};

use crate::access::Access;
use crate::first::clash_with;
use crate::held::Held;
use must_span::{AddressRange, Spans};
use std::marker::Model;

/// The ends of some addresses; where there are none they are one.
pub(crate) fn ends(ranges: &[AddressRange]) -> (i128, i128)
    requires { AreApart ranges.now }
    ensures { AreWithin result.0 result.1 ranges.now }
{
    if ranges.is_empty() {
        return (0, 0);
    }
    (ranges[0].low, ranges[ranges.len() - 1].high)
}

/// An operation, whose addresses lie from `low` to below `high`. Contracts see the operation.
#[derive(Drop)]
pub(crate) struct Placed {
    low: i128,
    high: i128,
    held: Held,
}

impl Model for Placed {
    ghost use Rattle.must_pending.specs.declared.held.Held.{Held};
    ghost use Rattle.must_pending.specs.Groups.{AreWithin};

    ghost Value = { Held };

    ghost view = { λ p. p.held };

    ghost invariant = { λ p. AreWithin p.low p.high p.held.spans };
}

impl Placed {
    /// The operation with its ends.
    pub(crate) fn new(held: Held) -> Placed
        ensures { result ≡ held }
    {
        let (low, high) = ends(held.spans.ranges());
        Placed { low, high, held }
    }

    /// Its request.
    pub(crate) fn request(&self) -> u32
        ensures { result ≡ self.now.request }
    {
        self.held.request
    }

    /// Its weight.
    pub(crate) fn weight(&self) -> u64
        ensures { result ≡ self.now.weight }
    {
        self.held.weight
    }

    /// The first clash with an access of these addresses, which lie from `low` to below `high`.
    pub(crate) fn clash(
        &self,
        spans: &Spans,
        access: Access,
        low: i128,
        high: i128,
    ) -> Option<(u32, i128)>
        requires { AreWithin low high spans.now }
        ensures { IsFirst (self.now ∷ []) spans.now access result }
    {
        if high <= self.low {
            return None;
        }
        if self.high <= low {
            return None;
        }
        clash_with(&self.held, spans, access)
    }
}
