//! An inbox, its ports and its taker.

ghost use Rattle.std.specs.Prelude.{◌≡◌, ◌<◌, [], ◌∷◌, ◌++◌, length, IfOk, OnOk, OnErr, IfSome, OnSome, IfNone};
ghost use Rattle.must_entry.specs.Lawful.{IsLawful};
ghost use Rattle.must_inbox.specs.Children.{IsApartFrom, IsOrderly, HasFronts, HasAll};

use crate::rule::{Given, JoinPort, Law, Push, SplitOff, Take};
use crate::view::View;
use crossbeam_queue::{RuledSegQueue, SegPass};
use must_base::NoMemory;
use must_entry::{Batch, RankRange};
use std::alloc::Global;
use std::marker::{Brand, Model};
use std::sync::Wait;

/// The most ports of an inbox.
pub const MOST_PORTS: u32 = 64;

type Queue = RuledSegQueue<(u32, Batch), View, Law>;

type Pass = SegPass<(u32, Batch), View>;

/// A queue into which children push batches, and from which one taker takes them. Contracts see which inbox it is.
pub struct Inbox {
    queue: Queue,
}

impl Model for Inbox {
    ghost use Rattle.std.specs.declared.alloc.Global.{Global};
    ghost use Rattle.crossbeam_queue.specs.SegTies.{SegId};

    ghost Value = { SegId Global };

    ghost view = { λ a. a.queue };
}

/// The one that takes. Contracts see the inbox, the ranges of the ports that were given, what joined children sent, and all that was
/// taken.
#[derive(Drop)]
pub struct Taker {
    pass: Pass,
    given: u32,
}

impl Model for Taker {
    ghost use Rattle.must_inbox.specs.States.{TakerState};

    ghost Value = { TakerState };

    ghost use Rattle.must_inbox.specs.Insides.{taker_state, IsTaker};

    ghost view = { taker_state };

    ghost invariant = { IsTaker };
}

/// A child's way to push. Contracts see the inbox, the child's number and range, and all that it sent.
#[derive(Drop)]
pub struct Port {
    pass: Pass,
    number: u32,
}

impl Model for Port {
    ghost use Rattle.must_inbox.specs.States.{PortState};

    ghost Value = { PortState };

    ghost use Rattle.must_inbox.specs.Insides.{port_state, IsPort};

    ghost view = { port_state };

    ghost invariant = { IsPort };
}

impl Inbox {
    /// An inbox without ports, with nothing in it, and its taker.
    pub fn open(alloc: Global) -> Result<(Inbox, Taker), NoMemory>
        ensures { IfOk result (λ r. r.1 ≡ record { inbox = r.0; ranges = []; joined = []; got = [] }) }
    {
        let (queue, pass) = Queue::with_rule(alloc)?;
        Ok((Inbox { queue }, Taker { pass, given: 0 }))
    }

    /// The port of the next child number, with this range and nothing sent. At most `MOST_PORTS` are given, and no two of their
    /// ranges share a rank. It takes no memory.
    pub fn port(&self, taker: &mut Taker, range: RankRange) -> Port
        requires inbox { taker.old.inbox ≡ self.now }
        requires few { length taker.old.ranges < 64 }
        requires apart { IsApartFrom taker.old.ranges range }
        ensures port { result ≡ record { inbox = self.now; number = length taker.old.ranges; range = range; sent = [] } }
        ensures taker { taker.new ≡ record taker.old { ranges = taker.old.ranges ++ range ∷ [] } }
    {
        self.port_at::<Brand>(taker, range)
    }

    // The range is a ghost member that the caller picks.
    fn port_at<K: Given>(&self, taker: &mut Taker, range: RankRange) -> Port
        requires inbox { taker.old.inbox ≡ self.now }
        requires few { length taker.old.ranges < 64 }
        requires apart { IsApartFrom taker.old.ranges range }
        requires range { range ≡ K.range }
        ensures port { result ≡ record { inbox = self.now; number = length taker.old.ranges; range = range; sent = [] } }
        ensures taker { taker.new ≡ record taker.old { ranges = taker.old.ranges ++ range ∷ [] } }
    {
        let pass = self.queue.another::<SplitOff<K>>(&mut taker.pass);
        let number = taker.given;
        taker.given += 1;
        Port { pass, number }
    }

    /// Pushes a batch, so that the port's sent list has it at its end. The sent list with the batch is lawful for the port's range.
    /// After `NoMemory` the port is unchanged, and the batch is dropped. It may wait for another thread in the middle of its push.
    pub fn push<R: Wait>(&self, rt: &R, port: &mut Port, batch: Batch) -> Result<(), NoMemory>
        requires inbox { port.old.inbox ≡ self.now }
        requires lawful { IsLawful port.old.range (port.old.sent ++ batch ∷ []) }
        ensures ok { OnOk result (port.new ≡ record port.old { sent = port.old.sent ++ batch ∷ [] }) }
        ensures err { OnErr result (port.new ≡ port.old) }
    {
        let message = (port.number, batch);
        match self.queue.push_as::<Push, R>(rt, &mut port.pass, message) {
            Ok(()) => Ok(()),
            Err(_) => Err(NoMemory),
        }
    }

    /// Takes the batch at the front of the inbox, with its child's number. `None` comes only where the inbox was empty at one moment
    /// of the call; then all that each joined child sent was taken. It takes no memory, and may wait for a push to end.
    pub fn take<R: Wait>(&self, rt: &R, taker: &mut Taker) -> Option<(u32, Batch)>
        requires inbox { taker.old.inbox ≡ self.now }
        ensures taken { IfSome result (λ m. taker.new ≡ record taker.old { got = taker.old.got ++ m ∷ [] }) }
        ensures none { IfNone result (taker.new ≡ taker.old) }
        ensures orderly { IsOrderly taker.new.ranges taker.new.got }
        ensures fronts { OnSome result (HasFronts taker.new.joined taker.new.got) }
        ensures all { IfNone result (HasAll taker.new.joined taker.new.got) }
    {
        self.queue.pop_as::<Take, R>(rt, &mut taker.pass)
    }

    /// Ends a port: the taker keeps its sent list as that of a joined child. It takes no memory.
    pub fn join(&self, taker: &mut Taker, port: Port)
        requires taker { taker.old.inbox ≡ self.now }
        requires port { port.inbox ≡ self.now }
        ensures { taker.new ≡ record taker.old { joined = taker.old.joined ++ (port.number, port.sent) ∷ [] } }
    {
        let Port { pass, number: _ } = port;
        self.queue.absorb::<JoinPort>(&mut taker.pass, pass);
    }
}

impl Drop for Inbox {
    fn drop(self) {
        let Inbox { queue } = self;
        queue.destroy();
    }
}
