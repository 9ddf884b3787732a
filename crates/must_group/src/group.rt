//! Groups.

ghost use Rattle.std.specs.Prelude.{◌≡◌, ℕ, ℤ, IfOk, OnOk, OnErr, length, nat_eq, None, [], ◌∷◌, ◌++◌, false, position};
ghost use Rattle.std.specs.List.{IsDistinct};
ghost use Rattle.std.specs.Set.{is_member};
ghost use Rattle.must_group.specs.Groups.{union, intersection, difference, first_bad, incl, excl};

use crate::lookup::Lookup;
use crate::positions::{first_bad_place, is_behind, place_in, place_in_rising};
use must_base::NoMemory;
use std::alloc::Global;
use std::marker::Model;

/// A group of processes: an ordered list of distinct world ranks, each member's position being its rank in the group.
#[derive(Drop)]
pub struct Group {
    ranks: Vec<u32>,
    /// The ranks rise, so that a rank is found in logarithmic time.
    rises: bool,
}

impl Model for Group {
    ghost use Rattle.std.specs.Prelude.{◌≡◌, List, ℕ, nat_eq, true};
    ghost use Rattle.std.specs.List.{IsDistinct};
    ghost use Rattle.std.specs.List.Sorted.{IsNonDecreasing};

    ghost Value = { List ℕ };

    ghost view = { λ g. g.ranks.items };

    ghost invariant = { λ g. IsDistinct nat_eq g.ranks.items × (g.rises ≡ true → IsNonDecreasing g.ranks.items) };
}

/// The group with these world ranks.
fn listed(ranks: Vec<u32>) -> Group
    requires { IsDistinct nat_eq ranks.items }
    ensures { result ≡ ranks.items }
{
    let rises = ranks.is_sorted();
    Group { ranks, rises }
}

impl Group {
    /// The group with these world ranks in this order.
    pub fn of(alloc: Global, ranks: &[u32]) -> Result<Group, NoMemory>
        requires { IsDistinct nat_eq ranks.now }
        ensures { IfOk result (λ g. g ≡ ranks.now) }
    {
        let ranks = ranks.to_vec(alloc)?;
        Ok(listed(ranks))
    }

    /// The group without members.
    pub(crate) fn empty(alloc: Global) -> Group
        ensures { result ≡ [] }
    {
        listed(Vec::new(alloc))
    }

    /// One more member behind the others.
    pub(crate) fn push(&mut self, rank: u32) -> Result<(), NoMemory>
        requires { is_member nat_eq self.old rank ≡ false }
        ensures ok { OnOk result (self.new ≡ self.old ++ rank ∷ []) }
        ensures err { OnErr result (self.new ≡ self.old) }
    {
        let rises = self.rises && is_behind(&self.ranks, rank);
        self.ranks.push(rank)?;
        self.rises = rises;
        Ok(())
    }

    /// The world ranks of the members in order.
    pub fn ranks(&self) -> &[u32]
        ensures ranks { result.now ≡ self.now }
        ensures distinct { IsDistinct nat_eq self.now }
    {
        self.ranks.as_slice()
    }

    /// The position of the process with this world rank, if it is a member. It takes no memory.
    pub fn position(&self, rank: u32) -> Option<u32>
        ensures { result ≡ position (λ member. nat_eq member rank) self.now }
    {
        let place = if self.rises {
            place_in_rising(&self.ranks, rank)
        } else {
            place_in(&self.ranks, rank)
        };
        let place = place?;
        Some(place as u32)
    }

    /// The place of the first listed rank that names no position of the group or stands in the list before, if there is
    /// one. It takes no memory.
    pub fn valid_ranks(&self, ranks: &[i32]) -> Option<u32>
        ensures { result ≡ first_bad (length self.now) ranks.now }
    {
        let place = first_bad_place(self.ranks.len(), ranks)?;
        Some(place as u32)
    }

    /// All members of this group, then those of the other that are not in this one (`MPI_Group_union`).
    pub fn union(&self, alloc: Global, other: &Group) -> Result<Group, NoMemory>
        ensures { IfOk result (λ g. g ≡ union self.now other.now) }
    {
        let added = other.difference(alloc, self)?;
        let mut ranks = self.ranks.to_vec(alloc)?;
        ranks.extend_from_slice(&added.ranks)?;
        Ok(listed(ranks))
    }

    /// The members that are also in the other group, in this group's order (`MPI_Group_intersection`).
    pub fn intersection(&self, alloc: Global, other: &Group) -> Result<Group, NoMemory>
        ensures { IfOk result (λ g. g ≡ intersection self.now other.now) }
    {
        let others = Lookup::of(alloc, &other.ranks)?;
        let shared = self
            .ranks
            .iter()
            .copied()
            .filter(|rank| others.contains(*rank));
        let ranks = shared.collect(alloc)?;
        Ok(listed(ranks))
    }

    /// The members that are not in the other group, in this group's order (`MPI_Group_difference`).
    pub fn difference(&self, alloc: Global, other: &Group) -> Result<Group, NoMemory>
        ensures { IfOk result (λ g. g ≡ difference self.now other.now) }
    {
        let others = Lookup::of(alloc, &other.ranks)?;
        let own = self
            .ranks
            .iter()
            .copied()
            .filter(|rank| !others.contains(*rank));
        let ranks = own.collect(alloc)?;
        Ok(listed(ranks))
    }

    /// The members at the listed positions, in the list's order (`MPI_Group_incl`).
    pub fn incl(&self, alloc: Global, ranks: &[i32]) -> Result<Group, NoMemory>
        requires { first_bad (length self.now) ranks.now ≡ None }
        ensures { IfOk result (λ g. g ≡ incl self.now ranks.now) }
    {
        let mut chosen = Vec::new(alloc);
        for rank in ranks {
            chosen.push(self.ranks[*rank as usize])?;
        }
        Ok(listed(chosen))
    }

    /// The members whose position is not listed, in this group's order (`MPI_Group_excl`).
    pub fn excl(&self, alloc: Global, ranks: &[i32]) -> Result<Group, NoMemory>
        requires { first_bad (length self.now) ranks.now ≡ None }
        ensures { IfOk result (λ g. g ≡ excl self.now ranks.now) }
    {
        // The members are distinct, so leaving out the listed members leaves out the listed positions.
        let _ = &self.ranks;
        let listed = self.incl(alloc, ranks)?;
        self.difference(alloc, &listed)
    }
}
