//! The table of the types of one rank.

ghost use Rattle.std.specs.Prelude.{◌≡◌, ℕ, ◌+◌, ◌<◌, ◌≤◌, ◌^◌, ◌↔◌, [], ◌∷◌, ◌++◌, length, slice_set, IsTrue, IfOk, OnErr, Some, None, Ok, Err};
ghost use Rattle.std.specs.Option.{IsSome};
ghost use Rattle.must_type.specs.declared.fault.Limit2.TheVariants.{Weight, Reach};
ghost use Rattle.must_type.specs.Allowed.{IsAllowed};
ghost use Rattle.must_type.specs.Olds.{old_numbers};
ghost use Rattle.must_type.specs.Facts.{bounds_of};
ghost use Rattle.must_type.specs.Tree.{TypeTree, type_map, weight as weight_of_tree, IsWithinReach};
ghost use Rattle.must_type.specs.Table.{Types, tree_at, trees_at, made_of, AreLive, live_weight, IsDerived, message_weight, predefined};

use crate::bounds::Bounds;
use crate::construct::{Construct, TypeNo};
use crate::fault::TypeFault;
use crate::slots::{
    are_in, derived, is_derived, is_in, olds_of, predefined_slots, push_tree, tree_in,
};
use crate::tree::{Origin, Tree};
use crate::weight::weigh;
use must_base::NoMemory;
use std::alloc::Global;
use std::marker::Model;
use std::rc::Rc;

/// As many numbers as a table gives: 0, those of the predefined types, and 2^31 more.
const MOST_SLOTS: usize = 0x8000_001f;

/// The types of one rank by their numbers, with a limit of the weight of those that were made and are live.
#[derive(Drop)]
pub struct TypeTable {
    weight_limit: u64,
    live: u64,
    slots: Vec<Option<Rc<Tree>>>,
}

impl Model for TypeTable {
    ghost use Rattle.std.specs.Prelude.{◌≡◌, ◌≤◌};
    ghost use Rattle.must_type.specs.Table.{Types};
    ghost use Rattle.must_type.specs.TypesCode.{types_code};

    ghost Value = { Types };

    ghost coded = { types_code };

    ghost use Rattle.must_type.specs.Table.{live_weight};
    ghost use Rattle.must_type.specs.View.{slots_of};

    ghost view = { λ t. record { weight_limit = t.weight_limit; slots = slots_of t.slots.items } };

    ghost invariant = { λ t. (t.live ≡ live_weight (slots_of t.slots.items)) × (t.live ≤ t.weight_limit) };
}

impl TypeTable {
    /// The table of the predefined types, 1 to 30. Takes memory for these.
    pub fn new(alloc: Global, weight_limit: u64) -> Result<TypeTable, NoMemory>
        ensures { IfOk result (λ table. table ≡ record { weight_limit = weight_limit; slots = predefined }) }
    {
        let slots = predefined_slots(alloc)?;
        Ok(TypeTable {
            weight_limit,
            live: 0,
            slots,
        })
    }

    /// Whether the type is live. Takes constant time.
    pub fn is_live(&self, no: TypeNo) -> bool
        ensures { IsTrue result ↔ IsSome (tree_at self.now.slots no.number) }
    {
        is_in(self.slots.as_slice(), no)
    }

    /// Whether the type is live and was made by a call of the program, so that it may be freed. Takes constant time.
    pub fn is_derived(&self, no: TypeNo) -> bool
        ensures { IsTrue result ↔ IsDerived (tree_at self.now.slots no.number) }
    {
        is_derived(self.slots.as_slice(), no)
    }

    /// Whether `make` may be called with this call: the types that it names are live, its numbers are allowed, and a
    /// number is left. Takes time for the call's lists.
    pub fn can_make(&self, call: &Construct) -> bool
        ensures { IsTrue result ↔ AreLive self.now.slots (old_numbers call.now) × IsAllowed call.now × (length self.now.slots < 31 + 2 ^ 31) }
    {
        if !are_in(self.slots.as_slice(), call) {
            return false;
        }
        if !call.is_allowed() {
            return false;
        }
        self.slots.len() < MOST_SLOTS
    }

    /// The type's tree. Takes constant time.
    pub fn tree(&self, no: TypeNo) -> &Tree
        requires { IsSome (tree_at self.now.slots no.number) }
        ensures { tree_at self.now.slots no.number ≡ Some result.now }
    {
        tree_in(self.slots.as_slice(), no).as_ref()
    }

    /// The type's size and bounds. Takes constant time.
    pub fn bounds(&self, no: TypeNo) -> Bounds
        requires { IsSome (tree_at self.now.slots no.number) }
        ensures { (t : TypeTree) → tree_at self.now.slots no.number ≡ Some t → result ≡ bounds_of (type_map t) }
    {
        self.tree(no).bounds()
    }

    /// The weight of a message of `count` elements of the type. Takes constant time.
    pub fn weight(&self, no: TypeNo, count: u64) -> u128
        requires { IsSome (tree_at self.now.slots no.number) }
        ensures { (t : TypeTree) → tree_at self.now.slots no.number ≡ Some t → result ≡ message_weight count t }
    {
        weigh(&self.tree(no).facts(), count)
    }

    /// Makes the type that the call makes of the types that it names, and answers its number, one more than that of the
    /// type made before. Takes memory for the call's own numbers, and time for them alone.
    ///
    /// `Weight` comes where the weights of the live derived types and of this one exceed the limit, `Reach` where they
    /// don't and the type is past the reach of a type (docs/TYPES.md). After an error nothing has changed.
    pub fn make(&mut self, alloc: Global, call: &Construct) -> Result<TypeNo, TypeFault>
        requires live { AreLive self.old.slots (old_numbers call.now) }
        requires allowed { IsAllowed call.now }
        requires few { length self.old.slots < 31 + 2 ^ 31 }
        ensures made { IfOk result (λ no. (no.number ≡ length self.old.slots) × (self.new ≡ record self.old { slots = self.old.slots ++ Some (made_of self.old.slots call.now) ∷ [] })) }
        ensures lawful { IfOk result (λ no. (live_weight self.old.slots + weight_of_tree (made_of self.old.slots call.now) ≤ self.old.weight_limit) × IsWithinReach (made_of self.old.slots call.now)) }
        ensures heavy { result ≡ Err (TypeFault.TooWide Weight) → self.old.weight_limit < live_weight self.old.slots + weight_of_tree (made_of self.old.slots call.now) }
        ensures wide { result ≡ Err (TypeFault.TooWide Reach) → (live_weight self.old.slots + weight_of_tree (made_of self.old.slots call.now) ≤ self.old.weight_limit) × (IsWithinReach (made_of self.old.slots call.now) → ⊥) }
        ensures err { OnErr result (self.new ≡ self.old) }
    {
        let room = self.weight_limit - self.live;
        let olds = olds_of(alloc, self.slots.as_slice(), call)?;
        let (tree, weight) = derived(alloc, Origin::Derived, call, olds, room)?;
        let number = self.slots.len() as u32;
        push_tree(alloc, &mut self.slots, tree)?;
        self.live += weight;
        Ok(TypeNo { number })
    }

    /// Takes the type out of the table; types that were built from it stay as they are. Takes no memory.
    pub fn free(&mut self, no: TypeNo)
        requires { IsDerived (tree_at self.old.slots no.number) }
        ensures { self.new ≡ record self.old { slots = slice_set self.old.slots no.number None } }
    {
        self.live -= tree_in(self.slots.as_slice(), no).as_ref().facts().weight;
        self.slots[no.number as usize] = None;
    }
}
