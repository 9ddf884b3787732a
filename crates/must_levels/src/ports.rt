//! The ports of a node's children.

ghost use Rattle.std.specs.Prelude.{◌≡◌, ◌+◌, ◌*◌, ◌<◌, ◌≤◌, ◌^◌, [], ◌++◌, ℕ, List, map, length, IfOk};
ghost use Rattle.must_levels.specs.Sending.{ArePorts, range_of_port, closing_of, ArePlaced, AreOfInbox};

use crate::berth::Berth;
use must_base::NoMemory;
use must_entry::RankRange;
use must_inbox::{Inbox, MOST_PORTS, Taker};
use std::alloc::Global;

/// The ports for the ranks of `from` up to `to`, of which each has so many.
pub(crate) fn make_ports<S>(
    alloc: Global,
    inbox: &Inbox,
    taker: &mut Taker,
    from: u32,
    to: u32,
    width: u32,
) -> Result<Vec<Berth<S>>, NoMemory>
    requires inbox { taker.old.inbox ≡ inbox.now }
    requires fresh { (taker.old.ranges ≡ []) × (taker.old.joined ≡ []) × (taker.old.got ≡ []) }
    requires width { 0 < width }
    requires order { from < to }
    requires few { to ≤ from + 64 * width }
    requires small { from + 128 * width < 2 ^ 32 }
    ensures ports { IfOk result (λ v. ArePorts inbox.now width to to from v.items) }
    ensures few { IfOk result (λ v. length v.items ≤ 64) }
    ensures placed { IfOk result (λ v. ArePlaced 0 v.items) }
    ensures taker { IfOk result (λ v. taker.new ≡ record taker.old { ranges = map range_of_port v.items }) }
{
    let mut ports = Vec::new(alloc);
    let mut at = from;
    for _i in 0..MOST_PORTS {
        if at >= to {
            break;
        }
        let end = (at + width).min(to);
        let port = inbox.port(taker, RankRange { from: at, to: end });
        ports.push(Berth::new(port))?;
        at = end;
    }
    Ok(ports)
}

/// Joins all ports.
pub(crate) fn join_ports<S>(inbox: &Inbox, taker: &mut Taker, ports: Vec<Berth<S>>)
    requires { (taker.old.inbox ≡ inbox.now) × AreOfInbox inbox.now ports.items }
    ensures { taker.new ≡ record taker.old { joined = taker.old.joined ++ map closing_of ports.items } }
{
    for port in ports {
        inbox.join(taker, port.into_port());
    }
}
