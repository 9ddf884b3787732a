//! What the bounds of a type map follow from, in a few numbers.

ghost use Rattle.std.specs.Prelude.{◌≡◌, ◌+◌, ◌<◌, ◌≤◌, ◌^◌, ◌↔◌, IsTrue, ℕ, pos, ◌*◌, ◌+ℤ◌, ◌*ℤ◌, MatchOption};
ghost use Rattle.must_call.specs.Basics.{size_of};
ghost use Rattle.must_type.specs.Maps.{IsBounded, padded};
ghost use Rattle.must_type.specs.Summaries.{both_spans, span_join, moved_span, span_moved, no_entries, join, shift, repeated, marked, unmarked, lower_by, upper_by, lower_bound, upper_bound, bounds_by, AreBounded, AreOrdered, IsBoundedBy, IsOrdered, Fits};

use crate::bounds::Bounds;

/// The least displacement and the greatest end of some entries.
#[derive(Clone, Copy, Debug, PartialEq, Eq)]
pub struct Span {
    pub low: i128,
    pub high: i128,
}

/// The numbers of a map that its bounds and its reach follow from.
#[derive(Clone, Copy, Debug, PartialEq, Eq)]
pub struct Summary {
    /// The sum of the sizes of the basics.
    pub size: u128,
    /// The greatest alignment of the basics, 1 where there are none.
    pub alignment: u8,
    /// The span of the basics, where there are any.
    pub elements: Option<Span>,
    /// The span of the lower markers.
    pub lowers: Option<Span>,
    /// The span of the upper markers.
    pub uppers: Option<Span>,
}

fn join_spans(first: Option<Span>, second: Option<Span>) -> Option<Span>
    ensures { result ≡ span_join first second }
{
    match (first, second) {
        (None, second) => second,
        (first, None) => first,
        (Some(first), Some(second)) => Some(Span {
            low: first.low.min(second.low),
            high: first.high.max(second.high),
        }),
    }
}

fn move_span(span: Option<Span>, by: i128) -> Option<Span>
    requires bounded { AreBounded (2 ^ 126) span }
    requires ordered { AreOrdered span }
    requires near { IsBounded (2 ^ 125) by }
    ensures { result ≡ span_moved by span }
{
    match span {
        None => None,
        Some(span) => Some(Span {
            low: span.low + by,
            high: span.high + by,
        }),
    }
}

/// A factor of 31 bits times a distance.
pub(crate) fn times(factor: i128, distance: i128) -> i128
    requires small { IsBounded (2 ^ 31) factor }
    requires near { IsBounded (2 ^ 94) distance }
    ensures value { result ≡ factor *ℤ distance }
    ensures bounded { (n : ℕ) → IsBounded n distance → IsBounded (2 ^ 31 * n) result }
{
    factor * distance
}

/// How far a type may reach from 0, in bytes.
pub(crate) const REACH: i128 = 0x4000_0000_0000_0000;

fn is_near(span: Option<Span>) -> bool
    ensures { IsTrue result ↔ AreBounded (2 ^ 62) span }
{
    match span {
        None => true,
        Some(span) => -REACH <= span.low && span.high <= REACH,
    }
}

fn lower_of(markers: Option<Span>, all: Option<Span>) -> i128
    ensures { result ≡ lower_by markers all }
{
    match markers {
        Some(markers) => return markers.low,
        None => {}
    }
    match all {
        Some(all) => all.low,
        None => 0,
    }
}

/// The end with the least padding that makes its distance from `low` a multiple of `alignment`.
fn pad(low: i128, alignment: u8, end: i128) -> i128
    requires aligned { 1 ≤ alignment }
    requires low { IsBounded (2 ^ 63) low }
    requires end { IsBounded (2 ^ 63) end }
    ensures { result ≡ padded low alignment end }
{
    let length = end - low;
    end + (0 - length).rem_euclid(i128::from(alignment))
}

fn upper_of(markers: Option<Span>, all: Option<Span>, low: i128, alignment: u8) -> i128
    requires aligned { 1 ≤ alignment }
    requires bounded { AreBounded (2 ^ 62) all }
    requires ordered { AreOrdered all }
    requires low { IsBounded (2 ^ 63) low }
    ensures { result ≡ upper_by markers all low alignment }
{
    match markers {
        Some(markers) => return markers.high,
        None => {}
    }
    match all {
        Some(all) => pad(low, alignment, all.high),
        None => 0,
    }
}

impl Summary {
    /// That of a map without entries.
    #[tactic(auto, unfolding(crate::specs::Summaries::no_entries))]
    pub fn empty() -> Summary
        ensures { result ≡ no_entries }
    {
        Summary {
            size: 0,
            alignment: 1,
            elements: None,
            lowers: None,
            uppers: None,
        }
    }

    /// That of two maps together.
    #[tactic(auto, unfolding(crate::specs::Summaries::join))]
    pub fn joined(self, other: Summary) -> Summary
        requires { self.size + other.size < 2 ^ 128 }
        ensures { result ≡ join self other }
    {
        Summary {
            size: self.size + other.size,
            alignment: self.alignment.max(other.alignment),
            elements: join_spans(self.elements, other.elements),
            lowers: join_spans(self.lowers, other.lowers),
            uppers: join_spans(self.uppers, other.uppers),
        }
    }

    /// That of the map with `by` added to each displacement.
    #[tactic(auto, unfolding(crate::specs::Summaries::shift))]
    pub fn moved(self, by: i128) -> Summary
        requires bounded { IsBoundedBy (2 ^ 126) self }
        requires ordered { IsOrdered self }
        requires near { IsBounded (2 ^ 125) by }
        ensures { result ≡ shift by self }
    {
        Summary {
            size: self.size,
            alignment: self.alignment,
            elements: move_span(self.elements, by),
            lowers: move_span(self.lowers, by),
            uppers: move_span(self.uppers, by),
        }
    }

    /// That of `count` copies of the map, each `stride` bytes behind the one before.
    pub fn repeated(self, count: u32, stride: i128) -> Summary
        requires bounded { IsBoundedBy (2 ^ 126) self }
        requires ordered { IsOrdered self }
        requires aligned { 1 ≤ self.alignment }
        requires small { self.size ≤ 2 ^ 94 }
        requires few { count ≤ 2 ^ 31 }
        requires near { IsBounded (2 ^ 94) stride }
        ensures value { result ≡ repeated count stride self }
    {
        if count == 0 {
            return Summary::empty();
        }
        let last = times(i128::from(count - 1), stride);
        let all = self.joined(self.moved(last));
        Summary {
            size: u128::from(count) * self.size,
            ..all
        }
    }

    /// That of the basics alone.
    #[tactic(auto, unfolding(crate::specs::Summaries::unmarked))]
    pub fn unmarked(self) -> Summary
        ensures { result ≡ unmarked self }
    {
        Summary {
            lowers: None,
            uppers: None,
            ..self
        }
    }

    /// That of the basics and one marker of each bound.
    #[tactic(auto, unfolding(crate::specs::Summaries::marked))]
    pub fn marked(self, lb: i128, ub: i128) -> Summary
        ensures { result ≡ marked lb ub self }
    {
        Summary {
            lowers: Some(Span { low: lb, high: lb }),
            uppers: Some(Span { low: ub, high: ub }),
            ..self
        }
    }

    /// Whether the map lies within the reach of a type, but for its padded end.
    pub fn fits(&self) -> bool
        ensures { IsTrue result ↔ Fits self.now }
    {
        self.size <= REACH as u128
            && is_near(self.elements)
            && is_near(self.lowers)
            && is_near(self.uppers)
    }

    fn whole(&self) -> Option<Span>
        ensures { result ≡ span_join self.now.elements (span_join self.now.lowers self.now.uppers) }
    {
        join_spans(self.elements, join_spans(self.lowers, self.uppers))
    }

    /// The lower bound of the map.
    #[tactic(auto, unfolding(crate::specs::Summaries::lower_bound))]
    pub fn lower(&self) -> i128
        ensures { result ≡ lower_bound self.now }
    {
        lower_of(self.lowers, self.whole())
    }

    /// The upper bound of the map.
    #[tactic(auto, unfolding(crate::specs::Summaries::upper_bound))]
    pub fn upper(&self) -> i128
        requires fits { Fits self.now }
        requires ordered { IsOrdered self.now }
        requires aligned { 1 ≤ self.now.alignment }
        ensures { result ≡ upper_bound self.now }
    {
        upper_of(self.uppers, self.whole(), self.lower(), self.alignment)
    }

    /// The bounds of the map, where they lie within reach.
    pub fn bounds(&self) -> Option<Bounds>
        requires fits { Fits self.now }
        requires ordered { IsOrdered self.now }
        requires aligned { 1 ≤ self.now.alignment }
        ensures { MatchOption result (IsBounded (2 ^ 62) (upper_bound self.now) → ⊥) (λ found. (found ≡ bounds_by self.now) × IsBounded (2 ^ 62) (upper_bound self.now)) }
    {
        let lb = self.lower();
        let ub = self.upper();
        if ub < -REACH || REACH < ub {
            return None;
        }
        Some(Bounds {
            size: self.size as i128,
            lb,
            ub,
            extent: ub - lb,
        })
    }
}
