//! The items of one class that wait for their partner.

ghost use Rattle.std.specs.Prelude.{◌≡◌, ◌+◌, [], List, drop, IfOk, OnOk, OnErr, Some, slice_get, nat_lt};
ghost use Rattle.std.specs.Option.{option_map};
ghost use Rattle.must_find.specs.Adds.{Adds};
ghost use Rattle.must_p2p.specs.Queues.{met, pair_breaks, pair_matches_as, pair_of, partner, with_item, IsLeft, IsQueue};
ghost use Rattle.must_p2p.specs.Standing.{IsLeftAt};
ghost use Rattle.must_p2p.specs.declared.side.Side.{Side};
ghost use Rattle.must_p2p.specs.declared.waiting.Waiting.{Waiting};

use crate::judge::{judge_lone, judge_match, matched_of};
use crate::matched::Matched;
use crate::side::Side;
use crate::waiting::Waiting;
use must_base::NoMemory;
use must_find::{Finding, Findings};
use std::alloc::Global;
use std::collections::VecDeque;

/// How many items of each side came, and those that wait: sends where more sends came, else receives.
#[derive(Drop)]
pub(crate) struct Queue {
    pub sent: u64,
    pub received: u64,
    pub waiting: VecDeque<Waiting>,
}

/// Adds a finding, where there is one.
fn report(out: &mut Findings, finding: Option<Finding>) -> Result<(), NoMemory>
    ensures ok { OnOk result (Adds out.old out.new (λ f. finding ≡ Some f)) }
    ensures err { OnErr result (out.new ≡ out.old) }
{
    match finding {
        None => Ok(()),
        Some(finding) => {
            out.add(finding)?;
            Ok(())
        }
    }
}

/// Takes the first one out. The last one gives the memory back.
fn remove_first(alloc: Global, waiting: &mut VecDeque<Waiting>)
    ensures { waiting.new.items ≡ drop 1 waiting.old.items }
{
    let _ = waiting.pop_front();
    if waiting.is_empty() {
        *waiting = VecDeque::new(alloc);
    }
}

impl Queue {
    /// No items, with room for one: most queues have no more.
    fn new(alloc: Global) -> Result<Queue, NoMemory>
        ensures { IfOk result (IsQueue [] []) }
    {
        Ok(Queue {
            sent: 0,
            received: 0,
            waiting: VecDeque::with_capacity(alloc, 1)?,
        })
    }

    /// The queue of a class whose first item this is.
    pub(crate) fn first(alloc: Global, side: Side, item: Waiting) -> Result<Queue, NoMemory>
        ensures { IfOk result (IsQueue (with_item Side.Send side item []) (with_item Side.Receive side item [])) }
    {
        let mut queue = Queue::new(alloc)?;
        match side {
            Side::Send => {
                queue.waiting.push_back(item)?;
                queue.sent = 1;
                Ok(queue)
            }
            Side::Receive => {
                queue.waiting.push_back(item)?;
                queue.received = 1;
                Ok(queue)
            }
            Side::Probe => Ok(queue),
        }
    }

    fn take_send(
        &mut self,
        alloc: Global,
        send: Waiting,
        out: &mut Findings,
    ) -> Result<Option<Matched>, NoMemory>
        ensures found { IfOk result (λ m. m ≡ option_map pair_matches_as (option_map (λ r. (send, r)) (partner (nat_lt self.old.sent self.old.received) self.old.waiting.items))) }
        ensures rows { OnOk result (Adds out.old out.new (λ f. option_map pair_breaks (option_map (λ r. (send, r)) (partner (nat_lt self.old.sent self.old.received) self.old.waiting.items)) ≡ Some (Some f))) }
        ensures waits { OnOk result (self.new.waiting.items ≡ met (nat_lt self.old.sent self.old.received) self.old.waiting.items send) }
        ensures sent { OnOk result (self.new.sent ≡ self.old.sent + 1) }
        ensures received { OnOk result (self.new.received ≡ self.old.received) }
        ensures out { OnErr result (out.new ≡ out.old) }
    {
        let sent = self.sent.checked_add(1).ok_or(NoMemory)?;
        if self.sent < self.received {
            if let Some(receive) = self.waiting.front() {
                let found = matched_of(&send, receive);
                report(out, judge_match(&send, receive))?;
                remove_first(alloc, &mut self.waiting);
                self.sent = sent;
                return Ok(Some(found));
            }
        }
        self.waiting.push_back(send)?;
        self.sent = sent;
        Ok(None)
    }

    fn take_receive(
        &mut self,
        alloc: Global,
        receive: Waiting,
        out: &mut Findings,
    ) -> Result<Option<Matched>, NoMemory>
        ensures found { IfOk result (λ m. m ≡ option_map pair_matches_as (option_map (λ s. (s, receive)) (partner (nat_lt self.old.received self.old.sent) self.old.waiting.items))) }
        ensures rows { OnOk result (Adds out.old out.new (λ f. option_map pair_breaks (option_map (λ s. (s, receive)) (partner (nat_lt self.old.received self.old.sent) self.old.waiting.items)) ≡ Some (Some f))) }
        ensures waits { OnOk result (self.new.waiting.items ≡ met (nat_lt self.old.received self.old.sent) self.old.waiting.items receive) }
        ensures received { OnOk result (self.new.received ≡ self.old.received + 1) }
        ensures sent { OnOk result (self.new.sent ≡ self.old.sent) }
        ensures out { OnErr result (out.new ≡ out.old) }
    {
        let received = self.received.checked_add(1).ok_or(NoMemory)?;
        if self.received < self.sent {
            if let Some(send) = self.waiting.front() {
                let found = matched_of(send, &receive);
                report(out, judge_match(send, &receive))?;
                remove_first(alloc, &mut self.waiting);
                self.received = received;
                return Ok(Some(found));
            }
        }
        self.waiting.push_back(receive)?;
        self.received = received;
        Ok(None)
    }

    /// Takes an item of the class: the match that it makes, whose row is added.
    pub(crate) fn take(
        &mut self,
        alloc: Global,
        side: Side,
        item: Waiting,
        out: &mut Findings,
    ) -> Result<Option<Matched>, NoMemory>
        ensures found { (sends receives : List Waiting) → IsQueue sends receives self.old → IfOk result (λ m. m ≡ option_map pair_matches_as (pair_of side item sends receives)) }
        ensures rows { (sends receives : List Waiting) → IsQueue sends receives self.old → OnOk result (Adds out.old out.new (λ f. option_map pair_breaks (pair_of side item sends receives) ≡ Some (Some f))) }
        ensures queue { (sends receives : List Waiting) → IsQueue sends receives self.old → OnOk result (IsQueue (with_item Side.Send side item sends) (with_item Side.Receive side item receives) self.new) }
        ensures out { OnErr result (out.new ≡ out.old) }
    {
        match side {
            Side::Send => self.take_send(alloc, item, out),
            Side::Receive => self.take_receive(alloc, item, out),
            Side::Probe => Ok(None),
        }
    }
}

/// Appends a finding, where there is one.
fn collect(rows: &mut Vec<Finding>, finding: Option<Finding>) -> Result<(), NoMemory>
    ensures { OnOk result (Adds rows.old.items rows.new.items (λ f. finding ≡ Some f)) }
{
    match finding {
        None => Ok(()),
        Some(finding) => {
            rows.push(finding)?;
            Ok(())
        }
    }
}

/// Appends what the waiting items of a side give.
fn collect_left(
    side: Side,
    waiting: VecDeque<Waiting>,
    rows: &mut Vec<Finding>,
) -> Result<(), NoMemory>
    ensures { OnOk result (Adds rows.old.items rows.new.items (IsLeft side waiting.items)) }
{
    let mut rest = waiting;
    while let Some(item) = rest.pop_front() {
        collect(rows, judge_lone(side, &item))?;
    }
    Ok(())
}

/// Appends what the waiting items of a queue give.
pub(crate) fn collect_queue(queue: Queue, rows: &mut Vec<Finding>) -> Result<(), NoMemory>
    ensures { OnOk result (Adds rows.old.items rows.new.items (IsLeftAt queue)) }
{
    let side = if queue.sent < queue.received {
        Side::Receive
    } else {
        Side::Send
    };
    collect_left(side, queue.waiting, rows)
}
