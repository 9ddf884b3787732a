//! The bytes of a message.

ghost use Rattle.std.specs.Prelude.{◌≡◌, ℕ, ◌*◌, ◌^◌, ◌<◌, ◌≤◌, ℤ, ◌⊎◌, ◌↔◌, [], length, OnOk, OnErr, IfOk, Some};
ghost use Rattle.std.specs.Option.{IsSome};
ghost use Rattle.std.specs.Int.RustNames.{unsigned_abs};
ghost use Rattle.must_type.specs.Maps.{size};
ghost use Rattle.must_type.specs.Tree.{TypeTree, type_map};
ghost use Rattle.must_type.specs.Table.{tree_at, message_weight};
ghost use Rattle.must_span.specs.Ranges.{Covers, AreApart, addresses, IsFirstShared};
ghost use Rattle.must_span.specs.Bytes.{AreBytes, message_map, ShareByte};

use crate::copies::count;
use crate::lay::message;
use crate::ranges::{AddressRange, first_shared, union};
use must_base::NoMemory;
use must_type::{TypeNo, TypeTable};
use std::alloc::Global;
use std::marker::Model;

/// A set of addresses, as ranges in order with a gap between each and the next.
#[derive(Drop)]
pub struct Spans {
    ranges: Vec<AddressRange>,
}

impl Model for Spans {
    ghost use Rattle.std.specs.Prelude.{List};
    ghost use Rattle.must_span.specs.declared.ranges.AddressRange.{AddressRange};
    ghost use Rattle.must_span.specs.Ranges.{AreApart};

    ghost Value = { List AddressRange };

    ghost view = { λ s. s.ranges.items };

    ghost invariant = { λ s. AreApart s.ranges.items };
}

impl Spans {
    /// No addresses. Takes no memory.
    pub fn empty(alloc: Global) -> Spans
        ensures { result ≡ [] }
    {
        Spans {
            ranges: Vec::new(alloc),
        }
    }

    /// The addresses of `count` elements of a type, from `base` on: those of their entries (MPI 3.1, 4.1). There are no
    /// more ranges than the weight of the message. Takes time and memory for that weight.
    pub fn of(
        alloc: Global,
        table: &TypeTable,
        no: TypeNo,
        count: u64,
        base: i128,
    ) -> Result<Spans, NoMemory>
        requires live { IsSome (tree_at table.now.slots no.number) }
        requires count { count ≤ 2 ^ 48 }
        requires base { unsigned_abs base ≤ 2 ^ 96 }
        ensures bytes { IfOk result (λ spans. (t : TypeTree) → tree_at table.now.slots no.number ≡ Some t → AreBytes spans (message_map base count t)) }
        ensures few { IfOk result (λ spans. (t : TypeTree) → tree_at table.now.slots no.number ≡ Some t → length spans ≤ message_weight count t) }
    {
        let ranges = message(alloc, table.tree(no), count, base)?;
        Ok(Spans { ranges })
    }

    /// Lends the ranges.
    pub fn ranges(&self) -> &[AddressRange]
        ensures value { result.now ≡ self.now }
        ensures apart { AreApart self.now }
    {
        self.ranges.as_slice()
    }

    /// Adds the addresses of the other. Takes time and memory for both lists.
    pub fn join(&mut self, alloc: Global, other: &Spans) -> Result<(), NoMemory>
        ensures covers { OnOk result ((x : ℤ) → Covers self.new x ↔ (Covers self.old x ⊎ Covers other.now x)) }
        ensures err { OnErr result (self.new ≡ self.old) }
    {
        self.ranges = union(alloc, self.ranges.as_slice(), other.ranges.as_slice())?;
        Ok(())
    }

    /// The least address that is in both. Takes no memory, and time for both lists.
    pub fn first_shared(&self, other: &Spans) -> Option<i128>
        ensures { IsFirstShared self.now other.now result }
    {
        first_shared(self.ranges.as_slice(), other.ranges.as_slice())
    }

    /// How many addresses there are. Of a message they are fewer than its bytes exactly where two of its entries share a
    /// byte. Takes no memory.
    pub fn bytes(&self) -> u128
        ensures value { result ≡ length (addresses self.now) }
        ensures shared { (base : ℤ) (count : ℕ) (t : TypeTree) → AreBytes self.now (message_map base count t) → (result < count * size (type_map t)) ↔ ShareByte (message_map base count t) }
    {
        count(self.ranges.as_slice())
    }
}
