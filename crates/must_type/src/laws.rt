//! What the definitions of type maps say, in words of their own. These functions do nothing.

ghost use Rattle.std.specs.Prelude.{ℤ, ℕ, ◌≤◌, List};
ghost use Rattle.std.specs.List.{AllByRecursion};
ghost use Rattle.std.specs.Ordering.{nat_cmp};
ghost use Rattle.must_base.specs.Listing.{Rises};
ghost use Rattle.must_call.specs.declared.items.Dim.{Dim};
ghost use Rattle.must_type.specs.Constructs.{part_cells};
ghost use Rattle.must_type.specs.Allowed.{IsPart};
ghost use Rattle.must_type.specs.Laws.{IsLeastPadding, AreCellsOf};
ghost use Rattle.must_type.specs.Maps.{padding};

/// The padding makes a length a multiple of the alignment, and is the least that does.
pub fn padding_is_least()
    ensures { (length : ℤ) (alignment : ℕ) → 1 ≤ alignment → IsLeastPadding length alignment (padding length alignment) }
{}

/// The cells of a part of an array are listed in rising order, each within the array.
pub fn cells_rise()
    ensures { (dims : List Dim) → AllByRecursion IsPart dims → Rises nat_cmp (part_cells dims) × AreCellsOf dims (part_cells dims) }
{}
