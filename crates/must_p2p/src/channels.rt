//! Channels.

ghost use Rattle.std.specs.Prelude.{◌≡◌, ◌↔◌, ◌++◌, ◌∷◌, [], OnOk, OnErr, Ok, IfOk, IsOk, List, None, Some, false};
ghost use Rattle.std.specs.Option.{option_map};
ghost use Rattle.std.specs.Ordering.{is_eq};
ghost use Rattle.std.specs.BTreeMap as tree;
ghost use Rattle.must_base.specs.Listing.{Has};
ghost use Rattle.must_find.specs.Adds.{Adds};
ghost use Rattle.must_find.specs.declared.finding.Finding.{Finding};
ghost use Rattle.must_p2p.specs.Items.{number, Orderly};
ghost use Rattle.must_p2p.specs.Matching.{IsMatchOf, IsRowOf, IsLoneRow};
ghost use Rattle.must_p2p.specs.Queues.{pair_breaks, pair_matches_as, pair_of, with_item, StandsAt};
ghost use Rattle.must_p2p.specs.Standing.{key_cmp, IsLeftIn, StandsFor};
ghost use Rattle.must_p2p.specs.declared.item.MsgItem.{MsgItem};
ghost use Rattle.must_p2p.specs.declared.key.Key.{Key};
ghost use Rattle.must_p2p.specs.declared.side.Side.{Side};
ghost use Rattle.must_p2p.specs.declared.waiting.Waiting.{Waiting};

use crate::item::MsgItem;
use crate::key::Key;
use crate::matched::Matched;
use crate::names::Names;
use crate::queue::{Queue, collect_queue};
use crate::side::Side;
use crate::waiting::Waiting;
use must_base::NoMemory;
use must_find::{Finding, Findings};
use std::alloc::Global;
use std::collections::BTreeMap;

/// The channels between ranks (MPI 3.1, 3.5): for each class how many sends and receives came, and those that wait for their
/// partner. It keeps nothing of a pair that met.
///
/// Contracts say what the channels do where they stand for the items put so far. They hold where the items are in order: each
/// item's rank is its source where it is a send, else its destination; those of one rank come in order of call and part; and
/// a handle number of a rank names one communicator.
#[derive(Drop)]
pub struct Channels {
    alloc: Global,
    names: Names,
    queues: BTreeMap<Key, Queue>,
}

/// Puts an item into the queue with this key.
fn put_in(
    alloc: Global,
    queues: &mut BTreeMap<Key, Queue>,
    key: Key,
    side: Side,
    item: Waiting,
    out: &mut Findings,
) -> Result<Option<Matched>, NoMemory>
    ensures found { (s r : List Waiting) → StandsAt (tree.get key_cmp queues.old key) s r → IfOk result (λ m. m ≡ option_map pair_matches_as (pair_of side item s r)) }
    ensures rows { (s r : List Waiting) → StandsAt (tree.get key_cmp queues.old key) s r → OnOk result (Adds out.old out.new (λ f. option_map pair_breaks (pair_of side item s r) ≡ Some (Some f))) }
    ensures here { (s r : List Waiting) → StandsAt (tree.get key_cmp queues.old key) s r → OnOk result (StandsAt (tree.get key_cmp queues.new key) (with_item Side.Send side item s) (with_item Side.Receive side item r)) }
    ensures others { (other : Key) → is_eq (key_cmp key other) ≡ false → tree.get key_cmp queues.new other ≡ tree.get key_cmp queues.old other }
    ensures out { OnErr result (out.new ≡ out.old) }
{
    match queues.get_mut(&key) {
        Some(queue) => queue.take(alloc, side, item, out),
        None => {
            let queue = Queue::first(alloc, side, item)?;
            queues.insert(key, queue)?;
            Ok(None)
        }
    }
}

/// Appends what the items that wait in all queues give.
fn collect_all(queues: BTreeMap<Key, Queue>, rows: &mut Vec<Finding>) -> Result<(), NoMemory>
    ensures rows { OnOk result (Adds rows.old.items rows.new.items (IsLeftIn queues.entries)) }
    ensures ordered { tree.IsOrdered key_cmp queues }
{
    let _ = queues.len();
    let mut rest = queues;
    while let Some((_, queue)) = rest.pop_first() {
        collect_queue(queue, rows)?;
    }
    Ok(())
}

/// The rows as findings. They are put in from the least on, so each goes to the end.
fn in_order(alloc: Global, rows: Vec<Finding>) -> Result<Findings, NoMemory>
    ensures { IfOk result (λ found. (f : Finding) → Has found f ↔ Has rows.items f) }
{
    let mut rest = rows;
    rest.sort_unstable_by(|a, b| b.cmp(a));
    let mut found = Findings::new(alloc);
    while let Some(row) = rest.pop() {
        found.add(row)?;
    }
    Ok(found)
}

impl Channels {
    /// Channels without items. They take no memory.
    pub fn new(alloc: Global) -> Result<Channels, NoMemory>
        ensures empty { IfOk result (λ channels. StandsFor channels []) }
        ensures succeeds { IsOk result }
    {
        Ok(Channels {
            alloc,
            names: Names::new(alloc),
            queues: BTreeMap::new(alloc),
        })
    }

    /// The number that an item will have if it is put next: how many items of its class came, receives for a receive or a
    /// probe, sends for a send.
    pub fn next_number(&self, item: &MsgItem) -> u64
        ensures { (items : List MsgItem) → StandsFor self.now items → Orderly (items ++ item.now ∷ []) → result ≡ number (items ++ item.now ∷ []) item.now }
    {
        let Some(name) = self.names.find(item) else {
            return 0;
        };
        match self.queues.get(&item.key(name)) {
            None => 0,
            Some(queue) => match item.side {
                Side::Send => queue.sent,
                Side::Receive => queue.received,
                Side::Probe => queue.received,
            },
        }
    }

    /// Puts a send or a receive into the queue of its class.
    fn put_message(
        &mut self,
        item: MsgItem,
        out: &mut Findings,
    ) -> Result<Option<Matched>, NoMemory>
        ensures put { (items : List MsgItem) → StandsFor self.old items → Orderly (items ++ item ∷ []) → OnOk result (StandsFor self.new (items ++ item ∷ [])) }
        ensures found { (items : List MsgItem) → StandsFor self.old items → Orderly (items ++ item ∷ []) → IfOk result (IsMatchOf (items ++ item ∷ []) item) }
        ensures rows { (items : List MsgItem) → StandsFor self.old items → Orderly (items ++ item ∷ []) → OnOk result (Adds out.old out.new (IsRowOf (items ++ item ∷ []) item)) }
        ensures out { OnErr result (out.new ≡ out.old) }
    {
        let name = self.names.number(&item)?;
        let key = item.key(name);
        put_in(
            self.alloc,
            &mut self.queues,
            key,
            item.side,
            item.into_waiting(),
            out,
        )
    }

    /// Puts an item in. It answers the match of the item with its partner where the partner is there, and adds what this
    /// match breaks: a finding of M1 or M2, or nothing. A probe makes no match and changes nothing. `NoMemory` comes where
    /// memory is short, and where there are more names than 2^32 or more items of a class than 2^64; no finding was added
    /// then, and the channels are only to be dropped.
    pub fn put(&mut self, item: MsgItem, out: &mut Findings) -> Result<Option<Matched>, NoMemory>
        ensures put { (items : List MsgItem) → StandsFor self.old items → Orderly (items ++ item ∷ []) → OnOk result (StandsFor self.new (items ++ item ∷ [])) }
        ensures found { (items : List MsgItem) → StandsFor self.old items → Orderly (items ++ item ∷ []) → IfOk result (IsMatchOf (items ++ item ∷ []) item) }
        ensures rows { (items : List MsgItem) → StandsFor self.old items → Orderly (items ++ item ∷ []) → OnOk result (Adds out.old out.new (IsRowOf (items ++ item ∷ []) item)) }
        ensures probe { item.side ≡ Side.Probe → (result ≡ Ok None) × ((self.new ≡ self.old) × (out.new ≡ out.old)) }
        ensures out { OnErr result (out.new ≡ out.old) }
    {
        match item.side {
            Side::Probe => Ok(None),
            Side::Send => self.put_message(item, out),
            Side::Receive => self.put_message(item, out),
        }
    }

    /// Adds M3 for each send without a match, and M4 for each receive without one. It takes time linear in the findings that
    /// there are, and N log N in the N that it adds.
    pub fn close(self, out: &mut Findings) -> Result<(), NoMemory>
        ensures { (items : List MsgItem) → StandsFor self items → Orderly items → OnOk result (Adds out.old out.new (IsLoneRow items)) }
    {
        let Channels {
            alloc,
            names: _,
            queues,
        } = self;
        let mut rows = Vec::new(alloc);
        collect_all(queues, &mut rows)?;
        let lone = in_order(alloc, rows)?;
        out.merge(&lone)
    }
}
