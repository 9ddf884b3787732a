//! Ranges that are repeated.

ghost use Rattle.std.specs.Prelude.{◌≡◌, ℕ, ◌*◌, ◌^◌, ◌≤◌, ℤ, pos, ◌+ℤ◌, ◌*ℤ◌, ◌↔◌, [], ◌∷◌, ◌++◌, map, length, OnOk, IfOk, IsTrue};
ghost use Rattle.std.specs.Int.RustNames.{unsigned_abs};
ghost use Rattle.std.specs.List.{AllByRecursion};
ghost use Rattle.must_span.specs.Ranges.{Covers, IsFilled, AreApart, addresses};
ghost use Rattle.must_span.specs.Steps.{IsNear, moved_range, Repeats, IsDense};

use crate::ranges::{AddressRange, sweep};
use must_base::NoMemory;
use std::alloc::Global;

/// The range that lies `by` further up.
fn moved(range: AddressRange, by: i128) -> AddressRange
    requires near { IsNear (2 ^ 100) range }
    requires by_near { unsigned_abs by ≤ 2 ^ 126 }
    ensures { result ≡ moved_range by range }
{
    AddressRange {
        low: range.low + by,
        high: range.high + by,
    }
}

/// Puts in ranges that lie `by` further up.
fn push_moved(
    out: &mut Vec<AddressRange>,
    ranges: &[AddressRange],
    by: i128,
) -> Result<(), NoMemory>
    requires near { AllByRecursion (IsNear (2 ^ 100)) ranges.now }
    requires by_near { unsigned_abs by ≤ 2 ^ 126 }
    ensures { OnOk result (out.new.items ≡ out.old.items ++ map (moved_range by) ranges.now) }
{
    for range in ranges {
        out.push(moved(*range, by))?;
    }
    Ok(())
}

/// Whether the ranges are one that is as long as the stride.
fn is_dense(ranges: &[AddressRange], stride: i128) -> bool
    requires near { AllByRecursion (IsNear (2 ^ 100)) ranges.now }
    ensures { IsTrue result ↔ IsDense stride ranges.now }
{
    match ranges {
        [range] => range.high - range.low == stride,
        _ => false,
    }
}

/// Where a copy lies.
fn place_of(at: i128, stride: i128, copy: u64) -> i128
    requires at_near { unsigned_abs at ≤ 2 ^ 101 }
    requires far { copy * unsigned_abs stride ≤ 2 ^ 125 }
    ensures value { result ≡ at +ℤ pos copy *ℤ stride }
    ensures near { unsigned_abs result ≤ 2 ^ 126 }
{
    at + i128::from(copy) * stride
}

/// The copies of a range that is as long as the stride.
fn one_run(range: AddressRange, at: i128, stride: i128, count: u64) -> AddressRange
    requires near { IsNear (2 ^ 100) range }
    requires at_near { unsigned_abs at ≤ 2 ^ 100 }
    requires far { count * unsigned_abs stride ≤ 2 ^ 125 }
    ensures low { result.low ≡ at +ℤ range.low }
    ensures high { result.high ≡ (at +ℤ range.low) +ℤ pos count *ℤ stride }
{
    let low = at + range.low;
    AddressRange {
        low,
        high: place_of(low, stride, count),
    }
}

/// Puts in ranges `count` times, from `at` on, each time one stride further. One range that is as long as the stride
/// stays one.
pub(crate) fn repeat(
    out: &mut Vec<AddressRange>,
    ranges: &[AddressRange],
    at: i128,
    stride: i128,
    count: u64,
) -> Result<(), NoMemory>
    requires near { AllByRecursion (IsNear (2 ^ 100)) ranges.now }
    requires filled { AllByRecursion IsFilled ranges.now }
    requires at_near { unsigned_abs at ≤ 2 ^ 100 }
    requires far { count * unsigned_abs stride ≤ 2 ^ 125 }
    ensures { OnOk result (Repeats out.old.items ranges.now at stride count out.new.items) }
{
    if ranges.is_empty() {
        return Ok(());
    }
    if count == 0 {
        return Ok(());
    }
    if is_dense(ranges, stride) {
        out.push(one_run(ranges[0], at, stride, count))?;
        return Ok(());
    }
    for copy in 0..count {
        push_moved(out, ranges, place_of(at, stride, copy))?;
    }
    Ok(())
}

/// How many addresses there are.
pub(crate) fn count(ranges: &[AddressRange]) -> u128
    requires { AreApart ranges.now }
    ensures { result ≡ length (addresses ranges.now) }
{
    let mut total = 0;
    for range in ranges {
        total += range.high.abs_diff(range.low);
    }
    total
}

/// The ranges in order, with those as one that overlap or touch.
pub(crate) fn settled(
    alloc: Global,
    mut ranges: Vec<AddressRange>,
) -> Result<Vec<AddressRange>, NoMemory>
    requires { AllByRecursion IsFilled ranges.items }
    ensures apart { IfOk result (λ settled. AreApart settled.items) }
    ensures covers { IfOk result (λ settled. (x : ℤ) → Covers settled.items x ↔ Covers ranges.items x) }
    ensures few { IfOk result (λ settled. length settled.items ≤ length ranges.items) }
{
    ranges.sort_by_key(|range| range.low)?;
    let settled = sweep(alloc, ranges.as_slice())?;
    Ok(settled)
}
