//! Needs whose calls may share lists.

ghost use Rattle.std.specs.Prelude.{◌≡◌, ℕ, ◌+◌, ◌<◌, ◌≤◌, ◌^◌, ◌++◌, ◌∷◌, [], List, Option, Some, None, length, slice_get, map, replicate, IfOk, OnOk, OnErr, ◌↔◌, IsTrue};
ghost use Rattle.std.specs.List.{slice_index_or};
ghost use Rattle.std.specs.Option.{option_copied, option_map};
ghost use Rattle.must_call.specs.declared.place.Place.{Place};
ghost use Rattle.must_wait.specs.Needs.{calls_of, needs_of};
ghost use Rattle.must_wait.specs.Shared.{Table, IsTable, coded, gate, number_at};
ghost use Rattle.must_wait.specs.Ways.{AreThere, places_of, appended, pushed};

use crate::lists::{Needs, Places, SharedList};
use crate::way::Way;
use must_base::NoMemory;
use must_call::Place;
use std::alloc::Global;
use std::marker::Model;

/// The needs of the calls of one rank.
#[derive(Drop)]
pub(crate) struct RankRow {
    calls: Vec<Needs>,
}

impl Model for RankRow {
    ghost use Rattle.std.specs.Prelude.{List};
    ghost use Rattle.must_call.specs.declared.place.Place.{Place};

    ghost Value = { List (List (List Place)) };

    ghost view = { λ r. r.calls.items };
}

/// For each alternative of a call the number of the shared list that it is, if it is one. Alternatives behind the last have none.
#[derive(Drop)]
pub(crate) struct CallNumbers {
    ways: Vec<Option<u32>>,
}

impl Model for CallNumbers {
    ghost use Rattle.std.specs.Prelude.{List, Option, ℕ};

    ghost Value = { List (Option ℕ) };

    ghost view = { λ n. n.ways.items };
}

/// The numbers of the calls of one rank.
#[derive(Drop)]
pub(crate) struct RankNumbers {
    calls: Vec<CallNumbers>,
}

impl Model for RankNumbers {
    ghost use Rattle.std.specs.Prelude.{List, Option, ℕ};

    ghost Value = { List (List (Option ℕ)) };

    ghost view = { λ n. n.calls.items };
}

/// Rows whose calls may share lists: a list that many calls wait for is held once.
///
/// An alternative is a list of its call's own, or one shared list.
#[derive(Drop)]
pub struct SharedRows {
    alloc: Global,
    ranks: Vec<RankRow>,
    numbers: Vec<RankNumbers>,
    lists: Vec<SharedList>,
}

impl Model for SharedRows {
    ghost use Rattle.must_wait.specs.Shared.{Table, IsTable};

    ghost Value = { Table };

    ghost view = { λ r. record { needs = r.ranks.items; numbers = r.numbers.items; lists = r.lists.items } };

    ghost invariant = { λ r. IsTable (record { needs = r.ranks.items; numbers = r.numbers.items; lists = r.lists.items }) };
}

impl SharedRows {
    /// The rows of this many ranks, which have no calls yet.
    pub fn new(alloc: Global, ranks: u32) -> Result<SharedRows, NoMemory>
        ensures { IfOk result (λ rows. rows ≡ record { needs = replicate ranks []; numbers = replicate ranks []; lists = [] }) }
    {
        let mut rows = Vec::with_capacity(alloc, ranks as usize)?;
        let mut numbers = Vec::with_capacity(alloc, ranks as usize)?;
        for _rank in 0..ranks {
            rows.push(RankRow {
                calls: Vec::new(alloc),
            })?;
            numbers.push(RankNumbers {
                calls: Vec::new(alloc),
            })?;
        }
        Ok(SharedRows {
            alloc,
            ranks: rows,
            numbers,
            lists: Vec::new(alloc),
        })
    }

    /// Keeps a list to share, and gives its number. `NoMemory` comes also where ranks and lists together would be 2^32.
    /// The rows are then as before.
    pub fn share(&mut self, places: Places) -> Result<u32, NoMemory>
        ensures number { IfOk result (λ number. number ≡ length self.old.lists) }
        ensures ok { OnOk result (self.new ≡ record { needs = self.old.needs; numbers = self.old.numbers; lists = self.old.lists ++ places ∷ [] }) }
        ensures err { OnErr result (self.new ≡ self.old) }
    {
        if self.ranks.len() + self.lists.len() >= u32::MAX as usize {
            return Err(NoMemory);
        }
        let number = self.lists.len() as u32;
        let list = SharedList::of(self.alloc, places)?;
        self.lists.push(list)?;
        Ok(number)
    }

    /// Appends a call. After `NoMemory` the rows are as before.
    pub(crate) fn append(
        &mut self,
        rank: u32,
        needs: Needs,
        numbers: CallNumbers,
    ) -> Result<(), NoMemory>
        requires rank { rank < length self.old.needs }
        requires calls { length (calls_of self.old.needs rank) < 2 ^ 31 }
        requires shared { (way number : ℕ) → slice_index_or numbers way None ≡ Some number → (places : List Place) × (slice_get needs way ≡ Some places) × (slice_get self.old.lists number ≡ Some places) }
        ensures ok { OnOk result (self.new ≡ appended self.old rank needs numbers) }
        ensures err { OnErr result (self.new ≡ self.old) }
    {
        self.numbers[rank as usize].calls.push(numbers)?;
        match self.ranks[rank as usize].calls.push(needs) {
            Ok(()) => Ok(()),
            Err(_) => {
                self.numbers[rank as usize].calls.pop();
                Err(NoMemory)
            }
        }
    }

    /// Appends a call whose alternatives are its own. After `NoMemory` the rows are as before.
    pub(crate) fn push_own(&mut self, rank: u32, needs: Needs) -> Result<(), NoMemory>
        requires rank { rank < length self.old.needs }
        requires calls { length (calls_of self.old.needs rank) < 2 ^ 31 }
        ensures ok { OnOk result (self.new ≡ appended self.old rank needs []) }
        ensures err { OnErr result (self.new ≡ self.old) }
    {
        let none = CallNumbers {
            ways: Vec::new(self.alloc),
        };
        self.append(rank, needs, none)
    }

    /// The places of an alternative.
    fn places_of(&self, way: Way) -> Result<Places, NoMemory>
        ensures { IfOk result (λ places. places ≡ places_of self.now.lists way) }
    {
        match way {
            Way::Own(places) => Ok(places),
            Way::Shared(number) => match self.lists.get(number as usize) {
                Some(list) => list.places(),
                None => Ok(Places::from_vec(Vec::new(self.alloc))),
            },
        }
    }

    /// Whether each shared list that these alternatives name is there.
    pub fn has_lists(&self, ways: &[Way]) -> bool
        ensures { IsTrue result ↔ AreThere self.now.lists ways.now }
    {
        let count = self.lists();
        for way in ways {
            if !way.is_below(count) {
                return false;
            }
        }
        true
    }

    /// Appends the next call of a rank, with these alternatives. After `NoMemory` the rows are as before.
    pub fn push(&mut self, rank: u32, ways: Vec<Way>) -> Result<(), NoMemory>
        requires rank { rank < length self.old.needs }
        requires calls { length (calls_of self.old.needs rank) < 2 ^ 31 }
        requires shared { AreThere self.old.lists ways.items }
        ensures ok { OnOk result (self.new ≡ pushed self.old rank ways.items) }
        ensures err { OnErr result (self.new ≡ self.old) }
    {
        let mut needs = Vec::with_capacity(self.alloc, ways.len())?;
        let mut numbers = Vec::with_capacity(self.alloc, ways.len())?;
        for way in ways {
            numbers.push(way.number())?;
            needs.push(self.places_of(way)?)?;
        }
        self.append(rank, Needs::from_vec(needs), CallNumbers { ways: numbers })
    }

    /// How many ranks there are.
    pub fn ranks(&self) -> u32
        ensures { result ≡ length self.now.needs }
    {
        self.ranks.len() as u32
    }

    /// How many shared lists there are.
    pub fn lists(&self) -> u32
        ensures { result ≡ length self.now.lists }
    {
        self.lists.len() as u32
    }

    /// Lends the needs of a call, none exactly where there is no such call. It takes no memory.
    pub fn needs(&self, rank: u32, call: u32) -> Option<&Needs>
        ensures { option_copied result ≡ needs_of self.now.needs rank call }
    {
        match self.ranks.get(rank as usize) {
            Some(row) => row.calls.get(call as usize),
            None => None,
        }
    }

    /// How many ranks and lists there are.
    pub(crate) fn rank_count(&self) -> usize
        ensures count { result ≡ length (coded self.now) }
        ensures few { result < 2 ^ 32 }
        ensures calls { (rank : ℕ) → length (calls_of (coded self.now) rank) ≤ 2 ^ 31 }
        ensures valid { IsTable self.now }
    {
        let ranks = self.ranks.len();
        let lists = self.lists.len();
        ranks + lists
    }

    /// Lends the rows, whose numbers name the lists that stand there.
    pub(crate) fn lend(&self) -> &SharedRows
        ensures same { result.now ≡ self.now }
        ensures valid { IsTable result.now }
    {
        let _ = &self.lists;
        self
    }

    /// How many calls a rank or list has.
    pub(crate) fn call_count(&self, rank: u32) -> usize
        ensures { result ≡ length (calls_of (coded self.now) rank) }
    {
        let count = self.rank_count();
        match self.ranks.get(rank as usize) {
            Some(row) => row.calls.len(),
            None if (rank as usize) < count => 2,
            None => 0,
        }
    }

    /// Lends a shared list.
    pub(crate) fn list(&self, number: u32) -> Option<&[Place]>
        ensures { option_copied result ≡ slice_get self.now.lists number }
    {
        match self.lists.get(number as usize) {
            Some(list) => Some(list.items()),
            None => None,
        }
    }

    /// The number of the shared list that an alternative is.
    fn number(&self, rank: u32, call: u32, way: usize) -> Option<u32>
        ensures { result ≡ number_at self.now.numbers rank call way }
    {
        match self.numbers.get(rank as usize) {
            Some(row) => match row.calls.get(call as usize) {
                Some(call) => match call.ways.get(way) {
                    Some(number) => *number,
                    None => None,
                },
                None => None,
            },
            None => None,
        }
    }

    /// The gate of the shared list that an alternative is.
    pub(crate) fn gate_of(&self, rank: u32, call: u32, way: usize) -> Option<Place>
        ensures { result ≡ option_map (gate (length self.now.needs)) (number_at self.now.numbers rank call way) }
    {
        match self.number(rank, call, way) {
            Some(number) => Some(Place {
                rank: self.ranks.len() as u32 + number,
                call: 1,
            }),
            None => None,
        }
    }
}
