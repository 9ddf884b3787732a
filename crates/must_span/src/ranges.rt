//! Lists of ranges of addresses.

ghost use Rattle.std.specs.Prelude.{◌≡◌, ℤ, ◌<ℤ◌, ◌≤ℤ◌, ◌⊎◌, ◌↔◌, [], ◌∷◌, ◌++◌, IfOk, OnOk};
ghost use Rattle.std.specs.List.{AllByRecursion};
ghost use Rattle.std.specs.Prelude.{◌≤◌, length};
ghost use Rattle.must_span.specs.Ranges.{IsIn, Covers, IsFilled, AreApart, IsFirstShared};
ghost use Rattle.must_span.specs.Steps.{Rise, IsBehind, Puts};

use must_base::NoMemory;
use std::alloc::Global;

/// The addresses from `low` to below `high`.
#[derive(Clone, Copy, Debug, PartialEq, Eq)]
pub struct AddressRange {
    pub low: i128,
    pub high: i128,
}

/// Two ranges as one, where the second begins within the first or at its end.
fn joined(first: AddressRange, second: AddressRange) -> AddressRange
    requires from { first.low ≤ℤ second.low }
    requires touch { second.low ≤ℤ first.high }
    requires filled { IsFilled first }
    ensures low { result.low ≡ first.low }
    ensures filled { IsFilled result }
    ensures covers { (x : ℤ) → IsIn result x ↔ (IsIn first x ⊎ IsIn second x) }
{
    AddressRange {
        low: first.low,
        high: first.high.max(second.high),
    }
}

/// Puts in a range that begins no lower than those that are there.
fn put(swept: &mut Vec<AddressRange>, range: AddressRange) -> Result<(), NoMemory>
    requires apart { AreApart swept.old.items }
    requires filled { IsFilled range }
    requires behind { IsBehind range.low swept.old.items }
    ensures { OnOk result (Puts swept.old.items range swept.new.items) }
{
    let Some(last) = swept.pop() else {
        swept.push(range)?;
        return Ok(());
    };
    if last.high < range.low {
        swept.push(last)?;
        swept.push(range)?;
        return Ok(());
    }
    swept.push(joined(last, range))?;
    Ok(())
}

/// The ranges of a list in order, with those as one that overlap or touch.
pub(crate) fn sweep(alloc: Global, ranges: &[AddressRange]) -> Result<Vec<AddressRange>, NoMemory>
    requires rise { Rise ranges.now }
    requires filled { AllByRecursion IsFilled ranges.now }
    ensures apart { IfOk result (λ swept. AreApart swept.items) }
    ensures covers { IfOk result (λ swept. (x : ℤ) → Covers swept.items x ↔ Covers ranges.now x) }
    ensures few { IfOk result (λ swept. length swept.items ≤ length ranges.now) }
{
    let mut swept = Vec::new(alloc);
    for range in ranges {
        put(&mut swept, *range)?;
    }
    swept.shrink_to_fit();
    Ok(swept)
}

/// The addresses of both lists.
pub(crate) fn union(
    alloc: Global,
    first: &[AddressRange],
    second: &[AddressRange],
) -> Result<Vec<AddressRange>, NoMemory>
    requires first_apart { AreApart first.now }
    requires second_apart { AreApart second.now }
    ensures apart { IfOk result (λ both. AreApart both.items) }
    ensures covers { IfOk result (λ both. (x : ℤ) → Covers both.items x ↔ (Covers first.now x ⊎ Covers second.now x)) }
{
    let mut both = Vec::new(alloc);
    let mut i = 0;
    let mut j = 0;
    while i < first.len() && j < second.len() {
        if first[i].low <= second[j].low {
            put(&mut both, first[i])?;
            i += 1;
        } else {
            put(&mut both, second[j])?;
            j += 1;
        }
    }
    while i < first.len() {
        put(&mut both, first[i])?;
        i += 1;
    }
    while j < second.len() {
        put(&mut both, second[j])?;
        j += 1;
    }
    Ok(both)
}

/// The least address of both lists.
pub(crate) fn first_shared(first: &[AddressRange], second: &[AddressRange]) -> Option<i128>
    requires first_apart { AreApart first.now }
    requires second_apart { AreApart second.now }
    ensures { IsFirstShared first.now second.now result }
{
    let mut i = 0;
    let mut j = 0;
    while i < first.len() && j < second.len() {
        if first[i].high <= second[j].low {
            i += 1;
        } else if second[j].high <= first[i].low {
            j += 1;
        } else {
            return Some(first[i].low.max(second[j].low));
        }
    }
    None
}
