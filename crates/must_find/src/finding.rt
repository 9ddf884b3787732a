//! A finding.

ghost use Rattle.std.specs.Prelude.{◌≡◌};
ghost use Rattle.std.specs.Option.{option_cmp};
ghost use Rattle.must_find.specs.Order.{by_place, by_spot, by_all};

use crate::rule::Rule;
use must_call::Place;
use std::cmp::Ordering;

/// What a rule found: the call and the part of it where the finding stands, another call that shows it, and a number.
///
/// docs/RULES.md says for each rule what part, see and value are.
#[derive(Clone, Copy, Debug, PartialEq, Eq)]
pub struct Finding {
    pub rank: u32,
    pub call: u32,
    pub rule: Rule,
    pub part: u32,
    pub see: Option<Place>,
    pub value: i128,
}

fn compare_places(f: &Finding, g: &Finding) -> Ordering
    ensures { result ≡ by_place f.now g.now }
{
    f.rank
        .cmp(&g.rank)
        .then(f.call.cmp(&g.call))
        .then(f.rule.place().cmp(&g.rule.place()))
        .then(f.part.cmp(&g.part))
}

fn compare_spots(s: Place, t: Place) -> Ordering
    ensures { result ≡ by_spot s t }
{
    s.rank.cmp(&t.rank).then(s.call.cmp(&t.call))
}

fn compare_sees(s: Option<Place>, t: Option<Place>) -> Ordering
    ensures { result ≡ option_cmp by_spot s t }
{
    match (s, t) {
        (None, None) => Ordering::Equal,
        (None, Some(_)) => Ordering::Less,
        (Some(_), None) => Ordering::Greater,
        (Some(s), Some(t)) => compare_spots(s, t),
    }
}

impl Finding {
    /// The order of reports: by rank, call, rule and part, then by see, none first, and by value.
    pub fn cmp(&self, other: &Finding) -> Ordering
        ensures { result ≡ by_all self.now other.now }
    {
        compare_places(self, other).then(compare_sees(self.see, other.see).then(
            self.value.cmp(&other.value),
        ))
    }
}
