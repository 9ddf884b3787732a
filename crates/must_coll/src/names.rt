//! Numbers of communicator names.

ghost use Rattle.std.specs.Prelude.{◌≡◌, ◌⊎◌, ◌+◌, ◌++◌, ◌∷◌, [], List, IfOk, OnOk, Some, None, false};
ghost use Rattle.std.specs.Ordering.{is_eq};
ghost use Rattle.must_group.specs.Names.{Name, name_cmp};
ghost use Rattle.must_coll.specs.Waves.{Orderly};
ghost use Rattle.must_coll.specs.Numbering.{handle_of, number_of, Knows};
ghost use Rattle.must_coll.specs.declared.item.WaveItem.{WaveItem};

use crate::item::WaveItem;
use must_base::NoMemory;
use must_group::CommName;
use std::alloc::Global;
use std::collections::BTreeMap;

/// A communicator's handle at a rank.
#[derive(Clone, Copy, PartialEq, Eq, PartialOrd, Ord)]
pub(crate) struct Handle {
    pub rank: u32,
    pub comm: u32,
}

/// The numbers of the names that came, from 0 in order of arrival. A name is compared with others where a handle first
/// comes, and never again.
#[derive(Drop)]
pub(crate) struct Names {
    pub met: BTreeMap<CommName, u32>,
    pub handles: BTreeMap<Handle, u32>,
    /// How many names came.
    pub count: u32,
}

impl WaveItem {
    fn handle(&self) -> Handle
        ensures { result ≡ handle_of self.now }
    {
        Handle {
            rank: self.place.rank,
            comm: self.comm,
        }
    }
}

impl Names {
    /// No names.
    pub(crate) fn new(alloc: Global) -> Names
        ensures { Knows result [] }
    {
        Names {
            met: BTreeMap::new(alloc),
            handles: BTreeMap::new(alloc),
            count: 0,
        }
    }

    /// The number of a name, which is new where the name is.
    fn by_name(&mut self, name: &CommName) -> Result<u32, NoMemory>
        ensures number { IfOk result (λ i. number_of self.new name.now ≡ Some i) }
        ensures others { (other : Name) → is_eq (name_cmp name.now other) ≡ false → number_of self.new other ≡ number_of self.old other }
        ensures old_or_new { IfOk result (λ i. ((number_of self.old name.now ≡ Some i) × (self.new.count ≡ self.old.count)) ⊎ ((number_of self.old name.now ≡ None) × ((i ≡ self.old.count) × (self.new.count ≡ self.old.count + 1)))) }
        ensures handles { self.new.handles ≡ self.old.handles }
    {
        if let Some(number) = self.met.get(name) {
            return Ok(*number);
        }
        let number = self.count;
        let next = number.checked_add(1).ok_or(NoMemory)?;
        self.met.insert(name.copy()?, number)?;
        self.count = next;
        Ok(number)
    }

    /// The number of an item's name, which is new where the name is.
    pub(crate) fn number(&mut self, item: &WaveItem) -> Result<u32, NoMemory>
        ensures knows { (items : List WaveItem) → Knows self.old items → Orderly (items ++ item.now ∷ []) → OnOk result (Knows self.new (items ++ item.now ∷ [])) }
        ensures number { (items : List WaveItem) → Knows self.old items → Orderly (items ++ item.now ∷ []) → IfOk result (λ i. number_of self.new item.now.name ≡ Some i) }
        ensures others { (other : Name) → is_eq (name_cmp item.now.name other) ≡ false → number_of self.new other ≡ number_of self.old other }
        ensures old_or_new { (items : List WaveItem) → Knows self.old items → Orderly (items ++ item.now ∷ []) → IfOk result (λ i. (number_of self.old item.now.name ≡ Some i) ⊎ ((number_of self.old item.now.name ≡ None) × (i ≡ self.old.count))) }
    {
        let handle = item.handle();
        if let Some(number) = self.handles.get(&handle) {
            return Ok(*number);
        }
        let number = self.by_name(&item.name)?;
        self.handles.insert(handle, number)?;
        Ok(number)
    }
}
