//! The calls that wait for their wave.

ghost use Rattle.std.specs.Prelude.{◌≡◌, ◌+◌, ◌≤◌, ◌++◌, ◌∷◌, [], List, IfOk, OnOk, OnErr, map, drop, length, not, slice_get};
ghost use Rattle.must_coll.specs.declared.item.WaveItem.{WaveItem};
ghost use Rattle.must_coll.specs.Waves.{has_gap, gap_count, present, missing};
ghost use Rattle.must_coll.specs.Fronts.{fronts, joined_at, popped, fills};

use crate::item::WaveItem;
use must_base::NoMemory;
use std::alloc::Global;
use std::collections::VecDeque;
use std::marker::Model;

/// A lane for each member: its calls that wait, in order. Contracts see the list of lanes.
#[derive(Drop)]
pub(crate) struct Lanes {
    lanes: Vec<VecDeque<WaveItem>>,
    /// How many lanes are empty.
    empty: usize,
}

impl Model for Lanes {
    ghost use Rattle.std.specs.Prelude.{◌≡◌, List, map};
    ghost use Rattle.must_coll.specs.declared.item.WaveItem.{WaveItem};
    ghost use Rattle.must_coll.specs.Waves.{gap_count};
    ghost use Rattle.must_coll.specs.Fronts.{fronts};

    ghost Value = { List (List WaveItem) };

    ghost view = { λ l. map (λ q. q.items) l.lanes.items };

    ghost invariant = { λ l. l.empty ≡ gap_count (fronts (map (λ q. q.items) l.lanes.items)) };
}

/// An empty lane for each member.
fn empty_lanes(alloc: Global, members: &[u32]) -> Result<Vec<VecDeque<WaveItem>>, NoMemory>
    ensures { IfOk result (λ v. map (λ q. q.items) v.items ≡ map (λ m. []) members.now) }
{
    let mut lanes = Vec::new(alloc);
    for _ in members {
        lanes.push(VecDeque::new(alloc))?;
    }
    Ok(lanes)
}

/// How many lanes a call fills that comes into this one: one, where the lane is empty.
fn fills(lane: &VecDeque<WaveItem>) -> usize
    ensures value { result ≡ fills lane.now.items }
    ensures small { result ≤ 1 }
{
    if lane.is_empty() { 1 } else { 0 }
}

/// How many lanes are empty.
fn count_empty(lanes: &[VecDeque<WaveItem>]) -> usize
    ensures { result ≡ gap_count (fronts (map (λ q. q.items) lanes.now)) }
{
    let mut empty = 0;
    for lane in lanes {
        empty += fills(lane);
    }
    empty
}

/// A call goes behind the others of its lane. Gives how many empty lanes it fills.
fn push_at(
    lanes: &mut Vec<VecDeque<WaveItem>>,
    position: usize,
    item: WaveItem,
) -> Result<usize, NoMemory>
    ensures lanes { OnOk result (map (λ q. q.items) lanes.new.items ≡ joined_at (map (λ q. q.items) lanes.old.items) position item) }
    ensures count { IfOk result (λ filled. filled + gap_count (fronts (map (λ q. q.items) lanes.new.items)) ≡ gap_count (fronts (map (λ q. q.items) lanes.old.items))) }
    ensures err { OnErr result (map (λ q. q.items) lanes.new.items ≡ map (λ q. q.items) lanes.old.items) }
{
    if position >= lanes.len() {
        return Ok(0);
    }
    let lane = &mut lanes[position];
    let filled = fills(lane);
    lane.push_back(item)?;
    Ok(filled)
}

/// The first call of a lane leaves, and goes behind these calls.
fn pop_into(lane: &mut VecDeque<WaveItem>, calls: &mut Vec<WaveItem>) -> Result<(), NoMemory>
    ensures lane { OnOk result (lane.new.items ≡ drop 1 lane.old.items) }
    ensures calls { OnOk result (calls.new.items ≡ calls.old.items ++ present (slice_get lane.old.items 0 ∷ [])) }
{
    if let Some(call) = lane.pop_front() {
        calls.push(call)?;
    }
    Ok(())
}

/// The first call of each lane leaves, and goes behind these calls.
fn pop_all(lanes: &mut Vec<VecDeque<WaveItem>>, calls: &mut Vec<WaveItem>) -> Result<(), NoMemory>
    ensures lanes { OnOk result (map (λ q. q.items) lanes.new.items ≡ popped (map (λ q. q.items) lanes.old.items)) }
    ensures calls { OnOk result (calls.new.items ≡ calls.old.items ++ present (fronts (map (λ q. q.items) lanes.old.items))) }
{
    for i in 0..lanes.len() {
        pop_into(&mut lanes[i], calls)?;
    }
    Ok(())
}

/// The first member whose lane is empty.
fn missing_of(members: &[u32], lanes: &[VecDeque<WaveItem>]) -> Option<u32>
    ensures { result ≡ missing members.now (fronts (map (λ q. q.items) lanes.now)) }
{
    for (i, lane) in lanes.iter().enumerate() {
        match lane.front() {
            None => return members.get(i).copied(),
            Some(_) => {}
        }
    }
    None
}

impl Lanes {
    /// No calls of these members.
    pub(crate) fn new(alloc: Global, members: &[u32]) -> Result<Lanes, NoMemory>
        ensures { IfOk result (λ lanes. lanes ≡ map (λ m. []) members.now) }
    {
        let lanes = empty_lanes(alloc, members)?;
        let empty = count_empty(&lanes);
        Ok(Lanes { lanes, empty })
    }

    /// A call goes behind the others of its lane.
    pub(crate) fn push(&mut self, position: usize, item: WaveItem) -> Result<(), NoMemory>
        ensures { OnOk result (self.new ≡ joined_at self.old position item) }
    {
        self.empty -= push_at(&mut self.lanes, position, item)?;
        Ok(())
    }

    /// Whether each member has a call that waits.
    pub(crate) fn is_whole(&self) -> bool
        ensures { result ≡ not (has_gap (fronts self.now)) }
    {
        self.empty == 0
    }

    /// The first member without a call.
    pub(crate) fn missing(&self, members: &[u32]) -> Option<u32>
        ensures { result ≡ missing members.now (fronts self.now) }
    {
        missing_of(members, &self.lanes)
    }

    /// The first call of each lane leaves: those that there are, in member order.
    pub(crate) fn take_wave(&mut self, alloc: Global) -> Result<Vec<WaveItem>, NoMemory>
        ensures calls { IfOk result (λ v. v.items ≡ present (fronts self.old)) }
        ensures lanes { OnOk result (self.new ≡ popped self.old) }
    {
        let mut calls = Vec::new(alloc);
        let popped = pop_all(&mut self.lanes, &mut calls);
        self.empty = count_empty(&self.lanes);
        popped?;
        Ok(calls)
    }
}
