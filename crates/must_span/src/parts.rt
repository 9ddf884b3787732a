//! The ranges of a part of an array.

ghost use Rattle.std.specs.Prelude.{◌≡◌, ℕ, ◌+◌, ◌-◌, ◌*◌, ◌^◌, ◌≤◌, ◌<◌, pos, ◌*ℤ◌, List, length, slice_index_or, IfOk};
ghost use Rattle.std.specs.Int.RustNames.{unsigned_abs};
ghost use Rattle.std.specs.List.{AllByRecursion};
ghost use Rattle.must_call.specs.declared.items.Dim.{Dim};
ghost use Rattle.must_type.specs.Maps.{Entry};
ghost use Rattle.must_type.specs.Constructs.{natural, cells_in, slow_first, subarray_map};
ghost use Rattle.must_type.specs.Weights.{part_weight};
ghost use Rattle.must_type.specs.Allowed.{IsPart, IsArrayPart};
ghost use Rattle.must_span.specs.Ranges.{IsFilled};
ghost use Rattle.must_span.specs.Steps.{IsNear, AreCopies, AreUsable, AreOf, IsLaid, element};

use crate::copies::repeat;
use crate::laid::Laid;
use crate::places::{natural, times};
use crate::ranges::AddressRange;
use must_base::NoMemory;
use must_call::Dim;
use std::alloc::Global;

/// The `k`-th dimension from the fastest on.
fn nth_fastest(order: u8, dims: &[Dim], k: usize) -> Dim
    requires within { k < length dims.now }
    requires parts { AllByRecursion IsPart dims.now }
    ensures value { (d : Dim) → result ≡ slice_index_or (slow_first order dims.now) (length dims.now - 1 - k) d }
    ensures part { IsPart result }
{
    if order == 0 {
        return dims[dims.len() - 1 - k];
    }
    dims[k]
}

/// The ranges of a part with one dimension more, in which a step is `step` bytes.
fn widened(
    alloc: Global,
    part: &[AddressRange],
    step: i128,
    dim: Dim,
) -> Result<Vec<AddressRange>, NoMemory>
    requires filled { AllByRecursion IsFilled part.now }
    requires near { AllByRecursion (IsNear (2 ^ 63 + unsigned_abs step)) part.now }
    requires step_near { unsigned_abs step ≤ 2 ^ 63 }
    requires dim { IsPart dim }
    ensures { IfOk result (λ wider. AreCopies part.now (pos (natural dim.start) *ℤ step) step (natural dim.subsize) wider.items) }
{
    let mut wider = Vec::new(alloc);
    let first = times(i128::from(dim.start), step);
    repeat(&mut wider, part, first, step, natural(dim.subsize))?;
    Ok(wider)
}

/// The ranges of all cells of the part.
pub(crate) fn part(
    alloc: Global,
    old: Laid,
    order: u8,
    dims: &[Dim],
) -> Result<Vec<AddressRange>, NoMemory>
    requires old { AreUsable old }
    requires part { IsArrayPart order dims.now }
    requires room { cells_in dims.now * unsigned_abs old.extent ≤ 2 ^ 62 }
    ensures { (T : List Entry) (w : ℕ) → AreOf T w old → IfOk result (λ made. IsLaid made.items (subarray_map order dims.now T) (part_weight (slow_first order dims.now) (element T w))) }
{
    let mut made = old.ranges;
    let mut step = old.extent;
    for k in 0..dims.len() {
        let dim = nth_fastest(order, dims, k);
        made = widened(alloc, made.as_slice(), step, dim)?;
        step = times(i128::from(dim.size), step);
    }
    Ok(made)
}
