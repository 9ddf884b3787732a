//! What a rank knows of its communicators, groups and operations beside their lives.

ghost use Rattle.std.specs.Prelude.{◌≡◌, ◌↔◌, ◌++◌, ◌∷◌, [], ◌+◌, ◌<◌, ◌^◌, ℕ, nat_eq, List, length, Option, Some, None, option_map, IfOk, OnOk, if◌then◌else◌};
ghost use Rattle.std.specs.List.{IsDistinct};
ghost use Rattle.must_group.specs.Groups.{below};
ghost use Rattle.must_local.specs.Objects.{place_of, slot_of, comm_in, group_in, operation_in};
ghost use Rattle.must_local.specs.Counted.{counted};
ghost use Rattle.must_local.specs.Bumps.{Bumps, bumped, first_objects};
ghost use Rattle.must_local.specs.declared.known.Known.TheVariants as slot;

use crate::comm::Comm;
use crate::known::Known;
use must_base::NoMemory;
use must_call::{COMM_SELF, COMM_WORLD, FIRST_MADE, GROUP_EMPTY};
use must_group::{CommName, Group};
use std::alloc::Global;
use std::marker::Model;

/// The first handle that a call makes stands behind two others in the table.
const BEFORE_MADE: u32 = FIRST_MADE - 2;

/// The world, the rank alone, and the handles that calls made, in order of number.
#[derive(Drop)]
pub struct Objects {
    slots: Vec<Known>,
    empty: Group,
}

impl Model for Objects {
    ghost use Rattle.std.specs.Prelude.{◌≡◌, List, []};
    ghost use Rattle.must_local.specs.declared.known.Known.{Known};

    ghost Value = { List Known };

    ghost view = { λ o. o.slots.items };

    ghost invariant = { λ o. o.empty ≡ [] };
}

/// Where a handle stands in the table.
fn place_of(number: u32) -> Option<usize>
    ensures { result ≡ place_of number }
{
    if number >= FIRST_MADE {
        return Some((number - BEFORE_MADE) as usize);
    }
    match number {
        COMM_WORLD => Some(0),
        COMM_SELF => Some(1),
        _ => None,
    }
}

/// The ranks below a size.
fn ranks_below(alloc: Global, size: u32) -> Result<Vec<u32>, NoMemory>
    ensures { IfOk result (λ v. v.items ≡ below size) }
{
    let mut ranks = Vec::new(alloc);
    for rank in 0..size {
        ranks.push(rank)?;
    }
    Ok(ranks)
}

/// A communicator that MPI names.
fn named(alloc: Global, root: u8, ranks: &[u32]) -> Result<Known, NoMemory>
    requires distinct { IsDistinct nat_eq ranks.now }
    requires few { length ranks.now < 2 ^ 32 }
    ensures { IfOk result (λ known. known ≡ slot.Comm (counted 0 (record { root = root; path = []; members = ranks.now }))) }
{
    let members = Group::of(alloc, ranks)?;
    let name = CommName::start(alloc, root, members)?;
    Ok(Known::Comm(Comm::new(name)))
}

/// One call more, where it is a communicator.
fn count_one(known: &mut Known) -> Result<(), NoMemory>
    ensures { OnOk result (known.new ≡ bumped known.old) }
{
    match known {
        Known::Comm(comm) => comm.count(),
        _ => Ok(()),
    }
}

impl Objects {
    /// The table before the first call, at a rank of a run of so many.
    pub fn new(alloc: Global, rank: u32, size: u32) -> Result<Objects, NoMemory>
        ensures { IfOk result (λ objects. objects ≡ first_objects rank size) }
    {
        let world = ranks_below(alloc, size)?;
        let world = named(alloc, 0, &world)?;
        let alone = named(alloc, 1, &[rank])?;
        let mut slots = Vec::new(alloc);
        slots.push(world)?;
        slots.push(alone)?;
        let empty = Group::of(alloc, &[])?;
        Ok(Objects { slots, empty })
    }

    /// How many stand in the table.
    pub fn len(&self) -> usize
        ensures { result ≡ length self.now }
    {
        self.slots.len()
    }

    fn slot(&self, number: u32) -> Option<&Known>
        ensures { option_map (λ k. k.now) result ≡ slot_of self.now number }
    {
        match place_of(number) {
            Some(place) => self.slots.get(place),
            None => None,
        }
    }

    /// A sound communicator.
    pub fn comm(&self, number: u32) -> Option<&Comm>
        ensures { option_map (λ c. c.now) result ≡ comm_in self.now number }
    {
        match self.slot(number) {
            Some(Known::Comm(comm)) => Some(comm),
            _ => None,
        }
    }

    /// A sound group.
    pub fn group(&self, number: u32) -> Option<&Group>
        ensures { option_map (λ g. g.now) result ≡ group_in self.now number }
    {
        if number == GROUP_EMPTY {
            return Some(&self.empty);
        }
        match self.slot(number) {
            Some(Known::Group(group)) => Some(group),
            _ => None,
        }
    }

    /// Whether a created operation commutes.
    pub fn commute(&self, number: u32) -> Option<bool>
        ensures { result ≡ operation_in self.now number }
    {
        match self.slot(number) {
            Some(Known::Operation(commute)) => Some(*commute),
            _ => None,
        }
    }

    /// One more handle, with the next number.
    pub fn push(&mut self, known: Known) -> Result<(), NoMemory>
        ensures { OnOk result (self.new ≡ self.old ++ known ∷ []) }
    {
        self.slots.push(known)?;
        Ok(())
    }

    /// One collective call more on a communicator.
    pub fn count(&mut self, number: u32) -> Result<(), NoMemory>
        ensures { OnOk result (Bumps number self.old self.new) }
    {
        if let Some(place) = place_of(number) {
            if place < self.slots.len() {
                count_one(&mut self.slots[place])?;
            }
        }
        Ok(())
    }
}
