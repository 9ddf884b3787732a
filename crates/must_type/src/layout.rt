//! The summary of the map that a call makes, without laying the map out.

ghost use Rattle.std.specs.Prelude.{◌≡◌, ℕ, ◌≤◌, ◌^◌, ℤ, pos, List, flat_map, length};
ghost use Rattle.std.specs.List.{AllByRecursion};
ghost use Rattle.must_type.specs.Maps.{Entry, IsBounded, extent, block as block_map};
ghost use Rattle.must_type.specs.Summaries.{summary, join, shift, repeated as repeat, Fits};
ghost use Rattle.must_type.specs.Allowed.{IsCount};
ghost use Rattle.must_type.specs.Facts.{IsSettled, IsOf, IsModest, IsWhereFits};

use crate::facts::Facts;
use crate::places::Place;
use crate::summary::Summary;

/// `length` elements, one extent apart.
pub(crate) fn run(old: &Facts, length: u32) -> Summary
    requires settled { IsSettled old.now }
    requires few { length ≤ 2 ^ 31 }
    ensures value { result ≡ repeat length old.now.bounds.extent old.now.summary }
    ensures modest { IsModest result }
{
    old.summary.repeated(length, old.bounds.extent)
}

/// A block: `length` elements that begin at `at`.
pub(crate) fn block(old: &Facts, length: u32, at: i128) -> Summary
    requires settled { IsSettled old.now }
    requires few { length ≤ 2 ^ 31 }
    requires near { IsBounded (2 ^ 94) at }
    ensures value { result ≡ shift at (repeat length old.now.bounds.extent old.now.summary) }
    ensures modest { IsModest result }
{
    run(old, length).moved(at)
}

/// The summary, where it lies within reach.
pub(crate) fn where_fits(summary: Summary) -> Option<Summary>
    ensures { IsWhereFits result summary }
{
    if summary.fits() {
        return Some(summary);
    }
    None
}

/// The summary of both, where it lies within reach.
pub(crate) fn add(all: Summary, more: Summary) -> Option<Summary>
    requires fits { Fits all }
    requires modest { IsModest more }
    ensures { IsWhereFits result (join all more) }
{
    where_fits(all.joined(more))
}

/// `count` runs of `length` elements, `stride` bytes apart.
pub(crate) fn runs(old: &Facts, count: u32, length: u32, stride: i128) -> Option<Summary>
    requires settled { IsSettled old.now }
    requires few { count ≤ 2 ^ 31 }
    requires short { length ≤ 2 ^ 31 }
    requires near { IsBounded (2 ^ 94) stride }
    ensures { IsWhereFits result (repeat count stride (repeat length old.now.bounds.extent old.now.summary)) }
{
    where_fits(run(old, length).repeated(count, stride))
}

/// The blocks of an indexed form; `common` is the length of those that have none of their own.
pub(crate) fn all_blocks<P: Place>(old: &Facts, common: u32, items: &[P]) -> Option<Summary>
    requires settled { IsSettled old.now }
    requires few { common ≤ 2 ^ 31 }
    requires allowed { AllByRecursion P.allowed items.now }
    ensures { (T : List Entry) → IsOf T old.now → IsWhereFits result (summary (flat_map (λ it. block_map (P.blocklength it common) T (P.at it (extent T))) items.now)) }
{
    let mut all = Summary::empty();
    for item in items {
        let blocklength = item.blocklength_of(common);
        let at = item.begins(old.bounds.extent);
        let Some(next) = add(all, block(old, blocklength, at)) else {
            return None;
        };
        all = next;
    }
    Some(all)
}
