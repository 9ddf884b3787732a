//! The operations of a rank whose items aren't given yet.
//!
//! Operations are numbered in their order, from 0. Those from `given` on are held, and the open ones are found by their requests, of
//! which each has one at most.

ghost use Rattle.std.specs.Prelude.{◌≡◌, ◌+◌, ◌++◌, ◌∷◌, [], ℕ, List, Option, Some, None, IfOk, OnOk, map, option_map, option_to_list};
ghost use Rattle.std.specs.Ordering.{nat_cmp};
ghost use Rattle.std.specs.BTreeMap.{get};
ghost use Rattle.must_call.specs.declared.call.Call.{Call};
ghost use Rattle.must_p2p.specs.declared.item.MsgItem.{MsgItem};
ghost use Rattle.must_rules.specs.Rank.{Rank};
ghost use Rattle.must_rules.specs.Operations.{Operation};
ghost use Rattle.must_hold.specs.declared.held.Pending.{Pending};
ghost use Rattle.must_hold.specs.declared.held.Held.TheVariants.{Open, Settled};
ghost use Rattle.must_entry.specs.declared.entry.Entry.TheVariants.{Message};
ghost use Rattle.must_messages.specs.MessageItems.{item_seen};
ghost use Rattle.must_hold.specs.Ended.{item_ended, need_ended};
ghost use Rattle.must_hold.specs.Queue.{Holds, found, pending_in};
ghost use Rattle.must_hold.specs.Changes.{IsAlike, Ends, Cancels, Pushes, GivesOne, GivesFront, is_over, may_give, not_done, item_left, GivesAny, GivesAll};

use crate::held::{End, Held, Need, Pending, Settling};
use crate::item::item_ended;
use crate::need::need_ended;
use must_base::NoMemory;
use must_entry::Entry;
use must_p2p::MsgItem;
use std::alloc::Global;
use std::collections::BTreeMap;

/// The operations that are held back.
#[derive(Drop)]
pub struct Table {
    /// How many operations were begun.
    pub count: u64,
    /// How many of them were given.
    pub given: u64,
    /// The others, by their numbers.
    pub held: BTreeMap<u64, Held>,
    /// The numbers of the open ones, by their requests.
    pub numbers: BTreeMap<u32, u64>,
}

/// The operation, where it is open.
fn pending_in(held: Option<&Held>) -> Option<&Pending>
    ensures { option_map (λ p. p.now) result ≡ pending_in (option_map (λ h. h.now) held.entry) }
{
    match held {
        Some(Held::Open(pending)) => Some(pending),
        _ => None,
    }
}

/// It is settled.
fn is_over(held: Option<&Held>) -> bool
    ensures { result ≡ is_over (option_map (λ h. h.now) held.entry) }
{
    match held {
        Some(Held::Settled(_)) => true,
        _ => false,
    }
}

/// Puts the item of an operation behind others, where it has one.
fn put_item(entries: &mut Vec<Entry>, item: Option<MsgItem>) -> Result<(), NoMemory>
    ensures { OnOk result (entries.new.items ≡ entries.old.items ++ map Message (option_to_list item)) }
{
    if let Some(item) = item {
        entries.push(Entry::Message { item })?;
    }
    Ok(())
}

/// What becomes of an operation that ended so: its item, and what it needs.
fn settled(rank: u32, pending: Pending, end: End) -> (Option<MsgItem>, Need)
    ensures item { option_map item_seen result.0 ≡ item_ended rank pending end pending.asked.deed }
    ensures need { result.1 ≡ need_ended rank pending end }
{
    let need = need_ended(&pending, end);
    let item = item_ended(rank, pending, end);
    (item, need)
}

/// The number behind this one. `NoMemory` comes where it has none of 64 bits.
fn number_behind(number: u64) -> Result<u64, NoMemory>
    ensures { IfOk result (λ next. next ≡ number + 1) }
{
    match number.checked_add(1) {
        Some(next) => Ok(next),
        None => Err(NoMemory),
    }
}

/// How an operation ends that nothing completes.
pub fn not_done() -> End
    ensures { result ≡ not_done }
{
    End {
        status: None,
        done: None,
        breaks: false,
    }
}

/// The item of an operation as it stands when the calls end.
fn left(rank: u32, held: Option<Held>) -> Option<MsgItem>
    ensures { option_map item_seen result ≡ item_left rank held }
{
    match held {
        Some(Held::Settled(item)) => item,
        Some(Held::Open(pending)) => item_ended(rank, pending, not_done()),
        None => None,
    }
}

impl Table {
    /// No operations. It takes no memory.
    pub fn new(alloc: Global) -> Table
        ensures holds { (r : Rank) → Holds r [] [] result }
        ensures given { result.given ≡ 0 }
    {
        Table {
            count: 0,
            given: 0,
            held: BTreeMap::new(alloc),
            numbers: BTreeMap::new(alloc),
        }
    }

    /// The open operation of a request. Takes time for the logarithm of the number of those held.
    pub fn find(&self, request: u32) -> Option<&Pending>
        ensures { option_map (λ p. p.now) result ≡ found self.now request }
    {
        let number = self.numbers.get(&request)?;
        pending_in(self.held.get(number))
    }

    /// Holds one operation more, which has this request, and gives its number.
    pub fn push(&mut self, held: Held, request: Option<u32>) -> Result<u64, NoMemory>
        ensures { IfOk result (λ n. Pushes n held request self.old self.new) }
    {
        let number = self.count;
        let Some(count) = number.checked_add(1) else {
            return Err(NoMemory);
        };
        self.held.insert(number, held)?;
        if let Some(request) = request {
            self.numbers.insert(request, number)?;
        }
        self.count = count;
        Ok(number)
    }

    /// Ends the open operation of a request, where there is one.
    pub fn end(&mut self, rank: u32, request: u32, end: End) -> Result<Option<Settling>, NoMemory>
        ensures given { OnOk result (self.new.given ≡ self.old.given) }
        ensures none { get nat_cmp self.old.numbers request ≡ None → IfOk result (λ s. (s ≡ None) × IsAlike self.old self.new) }
        ensures some { (n : ℕ) (p : Pending) → get nat_cmp self.old.numbers request ≡ Some n → get nat_cmp self.old.held n ≡ Some (Open p) → IfOk result (λ s. Ends rank request n p end s self.old self.new) }
    {
        let Some(number) = self.numbers.remove(&request) else {
            return Ok(None);
        };
        match self.held.remove(&number) {
            Some(Held::Open(pending)) => {
                let (item, need) = settled(rank, pending, end);
                self.held.insert(number, Held::Settled(item))?;
                Ok(Some(Settling { number, need }))
            }
            _ => Ok(None),
        }
    }

    /// Notes that a call asks to cancel the open operation of a request, where there is one.
    pub fn cancel(&mut self, request: u32) -> Result<(), NoMemory>
        ensures given { OnOk result (self.new.given ≡ self.old.given) }
        ensures none { get nat_cmp self.old.numbers request ≡ None → OnOk result (IsAlike self.old self.new) }
        ensures some { (n : ℕ) (p : Pending) → get nat_cmp self.old.numbers request ≡ Some n → get nat_cmp self.old.held n ≡ Some (Open p) → OnOk result (Cancels n p self.old self.new) }
    {
        let Some(number) = self.numbers.get(&request) else {
            return Ok(());
        };
        let number = *number;
        match self.held.remove(&number) {
            Some(Held::Open(pending)) => {
                let pending = Pending {
                    cancel: true,
                    ..pending
                };
                self.held.insert(number, Held::Open(pending))?;
                Ok(())
            }
            _ => Ok(()),
        }
    }

    /// Gives the next operation, which is settled.
    fn give_one(&mut self, entries: &mut Vec<Entry>) -> Result<(), NoMemory>
        ensures { (item : Option MsgItem) → get nat_cmp self.old.held self.old.given ≡ Some (Settled item) → OnOk result (GivesOne item self.old self.new entries.old.items entries.new.items) }
    {
        let number = self.given;
        let Some(next) = number.checked_add(1) else {
            return Err(NoMemory);
        };
        if let Some(Held::Settled(item)) = self.held.remove(&number) {
            put_item(entries, item)?;
        }
        self.given = next;
        Ok(())
    }

    /// The next operation is settled.
    fn may_give(&self) -> bool
        ensures { result ≡ may_give self.now }
    {
        self.given < self.count && is_over(self.held.get(&self.given))
    }

    /// Gives the operations that are settled, up to the first that is open.
    pub fn give(&mut self, entries: &mut Vec<Entry>) -> Result<(), NoMemory>
        ensures { OnOk result ((r : Rank) (calls : List Call) (ops : List Operation) → Holds r calls ops self.old → GivesFront r calls ops self.old self.new entries.old.items entries.new.items) }
    {
        while self.may_give() {
            self.give_one(entries)?;
        }
        Ok(())
    }

    /// Gives the next operation as it stands, where there is one.
    fn give_any(&mut self, rank: u32, entries: &mut Vec<Entry>) -> Result<(), NoMemory>
        ensures { OnOk result (GivesAny rank self.old self.new entries.old.items entries.new.items) }
    {
        let number = self.given;
        let next = number_behind(number)?;
        let held = self.held.remove(&number);
        let item = left(rank, held);
        put_item(entries, item)?;
        self.given = next;
        Ok(())
    }

    /// Gives all that is held, as it stands when the calls end.
    pub fn give_rest(&mut self, rank: u32, entries: &mut Vec<Entry>) -> Result<(), NoMemory>
        ensures { OnOk result ((r : Rank) (calls : List Call) (ops : List Operation) → r.rank ≡ rank → Holds r calls ops self.old → GivesAll r calls ops self.old entries.old.items entries.new.items) }
    {
        while self.given < self.count {
            self.give_any(rank, entries)?;
        }
        Ok(())
    }
}
