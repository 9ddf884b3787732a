//! Whether the numbers of a call are allowed.

ghost use Rattle.std.specs.Prelude.{◌↔◌, ◌≤◌, length, IsTrue};
ghost use Rattle.std.specs.List.{AllByRecursion};
ghost use Rattle.must_type.specs.Allowed.{IsAllowed, IsCount, IsPart, IsArrayPart};

use crate::construct::{Construct, StructItem};
use must_call::{Dim, HindexItem, IndexItem};

/// An item of a list in a call.
trait Item {
    /// Its numbers are allowed.
    ghost allowed: { Self → Type 0 };

    fn is_allowed(&self) -> bool
        ensures { IsTrue result ↔ allowed self.now };
}

impl Item for IndexItem {
    ghost allowed = { λ it. IsCount it.block };

    fn is_allowed(&self) -> bool {
        self.block >= 0
    }
}

impl Item for HindexItem {
    ghost allowed = { λ it. IsCount it.block };

    fn is_allowed(&self) -> bool {
        self.block >= 0
    }
}

impl Item for StructItem {
    ghost allowed = { λ it. IsCount it.block };

    fn is_allowed(&self) -> bool {
        self.block >= 0
    }
}

impl Item for Dim {
    ghost allowed = { IsPart };

    fn is_allowed(&self) -> bool {
        if self.size < 1 || self.subsize < 1 || self.start < 0 {
            return false;
        }
        i64::from(self.start) + i64::from(self.subsize) <= i64::from(self.size)
    }
}

fn are_allowed<T: Item>(items: &[T]) -> bool
    ensures { IsTrue result ↔ AllByRecursion T.allowed items.now }
{
    for item in items {
        if !item.is_allowed() {
            return false;
        }
    }
    true
}

fn is_array_part(order: u8, dims: &[Dim]) -> bool
    ensures { IsTrue result ↔ IsArrayPart order dims.now }
{
    order <= 1 && !dims.is_empty() && are_allowed(dims)
}

impl Construct {
    /// Whether its numbers are allowed: no count and no block length is negative, and a part lies within its array.
    /// Takes time for its lists.
    pub fn is_allowed(&self) -> bool
        ensures { IsTrue result ↔ IsAllowed self.now }
    {
        match self {
            Construct::Contiguous { count, .. } => *count >= 0,
            Construct::Vector { count, block, .. } | Construct::Hvector { count, block, .. } => {
                *count >= 0 && *block >= 0
            }
            Construct::Indexed { blocks, .. } => are_allowed(blocks.items()),
            Construct::Hindexed { blocks, .. } => are_allowed(blocks.items()),
            Construct::IndexedBlock { block, .. } | Construct::HindexedBlock { block, .. } => {
                *block >= 0
            }
            Construct::Struct { blocks } => are_allowed(blocks.items()),
            Construct::Dup { .. } | Construct::Resized { .. } => true,
            Construct::Subarray { order, dims, .. } => is_array_part(*order, dims.items()),
        }
    }
}
