//! The messages and collective calls of a run, by what they are looked up by.

ghost use Rattle.std.specs.Prelude.{◌≡◌, ◌+◌, ◌++◌, ◌∷◌, [], ℕ, Bool, List, Some, map, OnOk, IfOk, IfSome, false};
ghost use Rattle.std.specs.Ordering.{is_eq, nat_cmp};
ghost use Rattle.std.specs.BTreeMap as tree;
ghost use Rattle.must_p2p.specs.declared.side.Side.TheVariants as side;
ghost use Rattle.must_p2p.specs.Items.{same_side};
ghost use Rattle.must_node.specs.declared.fact.Fact.{Fact};
ghost use Rattle.must_node.specs.Partners.{item_of, spot_of, spot_cmp, meeting_of, meeting_cmp, call_spot, member_of, member_cmp, past, place_or, partner_place, member_place, item_at, op_places, call_at, wave_places};
ghost use Rattle.must_node.specs.RunNeeds.{want_places, way_places};
ghost use Rattle.must_node.specs.Indexed.{Keeps, KeepsIf, count_in, listed, Stands};

use crate::fact::Fact;
use crate::keys::{Call, Item, Meeting, Member, Spot};
use must_base::NoMemory;
use must_call::Place;
use must_entry::Want;
use must_p2p::Side;
use std::alloc::Global;
use std::collections::BTreeMap;

/// What of a run's facts is looked up: items and calls by where they stand, places by class and number and by wave and member, and
/// how many calls each rank has. Of several under one key the first stays.
#[derive(Drop)]
pub(crate) struct Index {
    pub items: BTreeMap<Spot, Item>,
    pub sends: BTreeMap<Meeting, Place>,
    pub receives: BTreeMap<Meeting, Place>,
    pub calls: BTreeMap<Spot, Call>,
    pub members: BTreeMap<Member, Place>,
    pub counts: BTreeMap<u32, u32>,
}

/// Puts a value under a key, unless the key has one.
fn keep_first<K: Ord + Drop, V: Drop>(
    map: &mut BTreeMap<K, V>,
    key: K,
    value: V,
) -> Result<(), NoMemory>
    ensures { OnOk result (Keeps K.cmp (tree.get K.cmp map.old) (tree.get K.cmp map.new) key value) }
{
    if map.contains_key(&key) {
        return Ok(());
    }
    map.insert(key, value)?;
    Ok(())
}

/// The item of a fact of a message.
fn item_of(fact: &Fact) -> Result<Option<Item>, NoMemory>
    ensures { IfOk result (λ item. listed item ≡ item_of fact.now) }
{
    match fact {
        Fact::Message {
            side,
            name,
            comm: _,
            source,
            dest,
            tag,
            number,
            place,
            part,
            wild: _,
        } => Ok(Some(Item {
            place: *place,
            part: *part,
            side: *side,
            source: *source,
            dest: *dest,
            tag: *tag,
            number: *number,
            name: name.copy()?,
        })),
        Fact::Wave { .. } => Ok(None),
        Fact::Need { .. } => Ok(None),
    }
}

impl Index {
    /// Of no facts.
    fn new(alloc: Global) -> Index
        ensures { Stands result [] }
    {
        Index {
            items: BTreeMap::new(alloc),
            sends: BTreeMap::new(alloc),
            receives: BTreeMap::new(alloc),
            calls: BTreeMap::new(alloc),
            members: BTreeMap::new(alloc),
            counts: BTreeMap::new(alloc),
        }
    }

    /// Adds a send or a receive to those of its side.
    fn add_end(&mut self, item: &Item) -> Result<(), NoMemory>
        ensures sends { OnOk result (KeepsIf (same_side side.Send item.now.side) meeting_cmp (tree.get meeting_cmp self.old.sends) (tree.get meeting_cmp self.new.sends) (meeting_of item.now) item.now.place) }
        ensures receives { OnOk result (KeepsIf (same_side side.Receive item.now.side) meeting_cmp (tree.get meeting_cmp self.old.receives) (tree.get meeting_cmp self.new.receives) (meeting_of item.now) item.now.place) }
        ensures items { self.new.items ≡ self.old.items }
        ensures rest { (self.new.calls ≡ self.old.calls) × ((self.new.members ≡ self.old.members) × (self.new.counts ≡ self.old.counts)) }
    {
        match item.side {
            Side::Send => keep_first(&mut self.sends, item.meeting()?, item.place),
            Side::Receive => keep_first(&mut self.receives, item.meeting()?, item.place),
            Side::Probe => Ok(()),
        }
    }

    /// Counts a call of a rank.
    fn add_need(&mut self, rank: u32) -> Result<(), NoMemory>
        ensures here { OnOk result (count_in (tree.get nat_cmp self.new.counts rank) ≡ count_in (tree.get nat_cmp self.old.counts rank) + 1) }
        ensures others { OnOk result ((other : ℕ) → is_eq (nat_cmp rank other) ≡ false → tree.get nat_cmp self.new.counts other ≡ tree.get nat_cmp self.old.counts other) }
        ensures items { (self.new.items ≡ self.old.items) × ((self.new.sends ≡ self.old.sends) × (self.new.receives ≡ self.old.receives)) }
        ensures calls { (self.new.calls ≡ self.old.calls) × (self.new.members ≡ self.old.members) }
    {
        match self.counts.get(&rank) {
            Some(count) => {
                let next = count.checked_add(1).ok_or(NoMemory)?;
                self.counts.insert(rank, next)?;
                Ok(())
            }
            None => {
                self.counts.insert(rank, 1)?;
                Ok(())
            }
        }
    }

    /// Adds a send, a receive or a probe.
    fn add_item(&mut self, item: Item) -> Result<(), NoMemory>
        ensures items { OnOk result (Keeps spot_cmp (tree.get spot_cmp self.old.items) (tree.get spot_cmp self.new.items) (spot_of item) item) }
        ensures sends { OnOk result (KeepsIf (same_side side.Send item.side) meeting_cmp (tree.get meeting_cmp self.old.sends) (tree.get meeting_cmp self.new.sends) (meeting_of item) item.place) }
        ensures receives { OnOk result (KeepsIf (same_side side.Receive item.side) meeting_cmp (tree.get meeting_cmp self.old.receives) (tree.get meeting_cmp self.new.receives) (meeting_of item) item.place) }
        ensures rest { (self.new.calls ≡ self.old.calls) × ((self.new.members ≡ self.old.members) × (self.new.counts ≡ self.old.counts)) }
    {
        self.add_end(&item)?;
        let spot = item.spot();
        keep_first(&mut self.items, spot, item)?;
        Ok(())
    }

    /// Adds a collective call.
    fn add_call(&mut self, call: Call) -> Result<(), NoMemory>
        ensures calls { OnOk result (Keeps spot_cmp (tree.get spot_cmp self.old.calls) (tree.get spot_cmp self.new.calls) (call_spot call) call) }
        ensures members { OnOk result (Keeps member_cmp (tree.get member_cmp self.old.members) (tree.get member_cmp self.new.members) (member_of call) call.place) }
        ensures items { (self.new.items ≡ self.old.items) × ((self.new.sends ≡ self.old.sends) × ((self.new.receives ≡ self.old.receives) × (self.new.counts ≡ self.old.counts))) }
    {
        let member = call.member()?;
        let spot = call.spot();
        keep_first(&mut self.members, member, call.place)?;
        keep_first(&mut self.calls, spot, call)?;
        Ok(())
    }

    /// Adds a fact.
    fn add(&mut self, fact: &Fact) -> Result<(), NoMemory>
        ensures { (facts : List Fact) → Stands self.old facts → OnOk result (Stands self.new (facts ++ fact.now ∷ [])) }
    {
        match fact {
            Fact::Message { .. } => match item_of(fact)? {
                Some(item) => {
                    self.add_item(item)?;
                    Ok(())
                }
                None => Ok(()),
            },
            Fact::Wave {
                name,
                comm: _,
                number,
                place,
            } => {
                let call = Call {
                    place: *place,
                    number: *number,
                    name: name.copy()?,
                };
                self.add_call(call)?;
                Ok(())
            }
            Fact::Need { place, ways: _ } => {
                self.add_need(place.rank)?;
                Ok(())
            }
        }
    }

    /// Of these facts.
    pub(crate) fn of(alloc: Global, facts: &[Fact]) -> Result<Index, NoMemory>
        ensures { IfOk result (λ index. Stands index facts.now) }
    {
        let mut index = Index::new(alloc);
        for fact in facts {
            index.add(fact)?;
        }
        Ok(index)
    }

    /// A place, or where there is none the place past the last call of a rank.
    fn place_or_past(&self, place: Option<Place>, rank: u32) -> Place
        ensures { (facts : List Fact) → Stands self.now facts → result ≡ place_or (past facts rank) place }
    {
        match place {
            Some(place) => place,
            None => match self.counts.get(&rank) {
                Some(count) => Place { rank, call: *count },
                None => Place { rank, call: 0 },
            },
        }
    }

    /// Where the partner of an item stands.
    fn partner_place(&self, item: &Item) -> Result<Place, NoMemory>
        ensures { (facts : List Fact) → Stands self.now facts → IfOk result (λ place. place ≡ partner_place facts item.now) }
    {
        let meeting = item.meeting()?;
        match item.side {
            Side::Send => {
                Ok(self.place_or_past(self.receives.get(&meeting).copied(), item.dest))
            }
            Side::Receive => {
                Ok(self.place_or_past(self.sends.get(&meeting).copied(), item.source))
            }
            Side::Probe => Ok(self.place_or_past(self.sends.get(&meeting).copied(), item.source)),
        }
    }

    /// Where the call of a member stands in the wave of a call.
    fn member_place(&self, call: &Call, rank: u32) -> Result<Place, NoMemory>
        ensures { (facts : List Fact) → Stands self.now facts → IfOk result (λ place. place ≡ member_place facts call.now rank) }
    {
        let member = Member {
            number: call.number,
            rank,
            name: call.name.copy()?,
        };
        Ok(self.place_or_past(self.members.get(&member).copied(), rank))
    }

    /// Appends the calls of these members in the wave of a call.
    fn push_members(&self, call: &Call, ranks: &[u32], out: &mut Vec<Place>) -> Result<(), NoMemory>
        ensures { (facts : List Fact) → Stands self.now facts → OnOk result (out.new.items ≡ out.old.items ++ map (member_place facts call.now) ranks.now) }
    {
        for rank in ranks {
            out.push(self.member_place(call, *rank)?)?;
        }
        Ok(())
    }

    /// The calls of all members in the wave of a call.
    pub(crate) fn wave_places(&self, alloc: Global, call: &Call) -> Result<Vec<Place>, NoMemory>
        ensures { (facts : List Fact) → Stands self.now facts → IfOk result (λ places. places.items ≡ wave_places facts (Some call.now)) }
    {
        let ranks = call.name.members().ranks();
        let mut places = Vec::with_capacity(alloc, ranks.len())?;
        self.push_members(call, ranks, &mut places)?;
        Ok(places)
    }

    /// The collective call of an alternative that waits for one wave alone.
    pub(crate) fn lone_wave(&self, way: &[Want]) -> Option<&Call>
        ensures { IfSome result (λ call. (facts : List Fact) (strict : Bool) → Stands self.now facts → way_places strict facts way.now ≡ wave_places facts (Some call.now)) }
    {
        match way {
            [Want::Wave { place }] => {
                let spot = Spot {
                    rank: place.rank,
                    call: place.call,
                    part: 0,
                };
                self.calls.get(&spot)
            }
            _ => None,
        }
    }

    /// Appends what a message waits for.
    fn push_op(&self, spot: Spot, out: &mut Vec<Place>) -> Result<(), NoMemory>
        ensures { (facts : List Fact) → Stands self.now facts → OnOk result (out.new.items ≡ out.old.items ++ op_places facts (item_at facts spot)) }
    {
        match self.items.get(&spot) {
            None => Ok(()),
            Some(item) => {
                out.push(self.partner_place(item)?)?;
                Ok(())
            }
        }
    }

    /// Appends what a collective call waits for.
    fn push_wave(&self, spot: Spot, out: &mut Vec<Place>) -> Result<(), NoMemory>
        ensures { (facts : List Fact) → Stands self.now facts → OnOk result (out.new.items ≡ out.old.items ++ wave_places facts (call_at facts spot)) }
    {
        match self.calls.get(&spot) {
            None => Ok(()),
            Some(call) => self.push_members(call, call.name.members().ranks(), out),
        }
    }

    /// Appends what a want stands for.
    fn push_want(&self, strict: bool, want: &Want, out: &mut Vec<Place>) -> Result<(), NoMemory>
        ensures { (facts : List Fact) → Stands self.now facts → OnOk result (out.new.items ≡ out.old.items ++ want_places strict facts want.now) }
    {
        match want {
            Want::Op {
                place,
                part,
                standard,
            } => {
                if *standard && !strict {
                    return Ok(());
                }
                let spot = Spot {
                    rank: place.rank,
                    call: place.call,
                    part: *part,
                };
                self.push_op(spot, out)
            }
            Want::Wave { place } => {
                let spot = Spot {
                    rank: place.rank,
                    call: place.call,
                    part: 0,
                };
                self.push_wave(spot, out)
            }
        }
    }

    /// The places of an alternative.
    pub(crate) fn way_places(
        &self,
        alloc: Global,
        strict: bool,
        way: &[Want],
    ) -> Result<Vec<Place>, NoMemory>
        ensures { (facts : List Fact) → Stands self.now facts → IfOk result (λ places. places.items ≡ way_places strict facts way.now) }
    {
        let mut places = Vec::new(alloc);
        for want in way {
            self.push_want(strict, want, &mut places)?;
        }
        Ok(places)
    }
}
