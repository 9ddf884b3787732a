//! The tree over all ranks of a run.

ghost use Rattle.std.specs.Prelude.{◌≡◌, length};
ghost use Rattle.std.specs.List.{AllByRecursion};
ghost use Rattle.must_levels.specs.Readers.{AreSince};
ghost use Rattle.must_levels.specs.Running.{IsTreeAnswer};
ghost use Rattle.must_levels.specs.Shape.{IsTree};

use crate::fault::RunFault;
use crate::reader::RankReader;
use crate::shape::levels;
use crate::spot::Spot;
use crate::tree::run_node;
use must_base::Gate;
use must_entry::RankRange;
use must_inbox::Inbox;
use must_node::Closed;
use std::alloc::Global;
use std::sync::Wait;
use std::thread::Threads;

/// Reads all batches of the parts, one for each rank from 0 on, through a tree whose nodes have at most `fan_in` children, and gives
/// what one root node closes with that takes them all, but for the order of the facts. A rank's batches are read from its part by an
/// `M`, which the thread of the rank makes. Each child runs in a thread of its own where one can be made.
///
/// The lowest rank that has a fault decides: it stopped with it, and all lower ones were read up to their end. Want of memory may be
/// answered instead, whatever was read. Whatever the answer is, each part was read as its reader reads it, or not at all.
pub fn run_tree<S: Send, M: RankReader<S> + Send, G: Gate + Sync, R: Threads + Wait + Sync>(
    rt: &R,
    alloc: Global,
    fan_in: u8,
    gate: &G,
    parts: &mut [S],
) -> Result<Closed, RunFault>
    requires shape { IsTree (length parts.old) fan_in }
    requires ready { AllByRecursion M.ready parts.old }
    ensures answer { IsTreeAnswer (M.whole (length parts.old)) (M.failed (length parts.old)) parts.old parts.new result }
    ensures since { AreSince M.since parts.old parts.new }
{
    let size = parts.len() as u32;
    let children = levels(size, fan_in) - 1;
    let (above, mut taker) = Inbox::open(alloc)?;
    let mut port = above.port(&mut taker, RankRange { from: 0, to: size });
    let spot = Spot { node: 0, child: 0 };
    run_node::<S, M, G, R>(
        rt,
        alloc,
        size,
        true,
        spot,
        0,
        children,
        fan_in as u32,
        gate,
        &above,
        parts,
        &mut port,
    )
}
