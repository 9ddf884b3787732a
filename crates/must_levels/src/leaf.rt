//! A child at level 0: it reads the batches of its rank, and pushes each.

ghost use Rattle.std.specs.Prelude.{◌≡◌, ◌<◌, ◌≤◌, [], ◌∷◌, ◌++◌, OnOk, IfErr};
ghost use Rattle.must_entry.specs.Lawful.{IsLawful};
ghost use Rattle.must_levels.specs.Readers.{one_rank};
ghost use Rattle.must_levels.specs.Running.{Ran};
ghost use Rattle.must_levels.specs.declared.fault.RunFault.TheVariants.{NoMemory as OutOfMemory};

use crate::fault::RunFault;
use crate::reader::RankReader;
use crate::spot::Spot;
use must_base::{Gate, NoMemory};
use must_entry::Batch;
use must_inbox::{Inbox, Port};
use must_node::Closed;
use std::alloc::Global;
use std::sync::Wait;

/// Passes the gate, and pushes a batch.
pub(crate) fn push_batch<G: Gate, R: Wait>(
    rt: &R,
    spot: Spot,
    gate: &G,
    upper: &Inbox,
    port: &mut Port,
    batch: Batch,
) -> Result<(), NoMemory>
    requires inbox { port.old.inbox ≡ upper.now }
    requires lawful { IsLawful port.old.range (port.old.sent ++ batch ∷ []) }
    ensures ok { OnOk result (port.new ≡ record port.old { sent = port.old.sent ++ batch ∷ [] }) }
    ensures err { IfErr result (λ e. port.new ≡ port.old) }
{
    let entries = batch.entries.items().len().min(u32::MAX as usize) as u32;
    gate.at_batch(rt, spot.node, spot.child, entries);
    upper.push(rt, port, batch)
}

/// Runs the child of one rank, of so many ranks.
pub(crate) fn run_leaf<S, M: RankReader<S>, G: Gate, R: Wait>(
    rt: &R,
    alloc: Global,
    size: u32,
    rank: u32,
    spot: Spot,
    gate: &G,
    upper: &Inbox,
    part: &mut S,
    port: &mut Port,
) -> Result<Option<Closed>, RunFault>
    requires within { (rank < size) × (size ≤ 1024) }
    requires ready { M.ready part.old }
    requires inbox { port.old.inbox ≡ upper.now }
    requires fresh { port.old.sent ≡ [] }
    requires range { port.old.range ≡ one_rank rank }
    ensures { Ran (M.whole size) (M.failed size) M.since 0 rank (part.old ∷ []) (part.new ∷ []) port.old port.new result }
{
    let mut reader = M::new(alloc, rank, size)?;
    for _ in rt.forever() {
        let given = reader.next(alloc, part);
        match given {
            Ok(None) => return Ok(None),
            Ok(Some(batch)) => push_batch(rt, spot, gate, upper, port, batch)?,
            Err(fault) => return Err(RunFault::at(rank, fault)),
        }
    }
    unreachable!()
}
