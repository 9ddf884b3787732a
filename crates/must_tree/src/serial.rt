//! The analysis on one thread.

ghost use Rattle.std.specs.Prelude.{◌≡◌, ◌≤◌, length, map};
ghost use Rattle.std.specs.List.{AllByRecursion};
ghost use Rattle.must_format.specs.declared.limits.TheConstants.{MOST_RANKS};
ghost use Rattle.must_run.specs.RunWaits.{is_strict};
ghost use Rattle.must_tree.specs.Told.{AreTied};
ghost use Rattle.must_tree.specs.Reading.{Analyses, mode_of};

use crate::fault::RunFault;
use crate::rank::read_rank;
use must_base::Source;
use must_entry::RankRange;
use must_find::Findings;
use must_format::Expect;
use must_node::Node;
use must_plan::{Plan, Sends};
use std::alloc::Global;

/// Whether standard sends wait for their receives.
fn is_strict(sends: Sends) -> bool
    ensures { result ≡ is_strict (mode_of sends) }
{
    match sends {
        Sends::Strict => true,
        Sends::Buffered => false,
    }
}

/// Reads the streams of a run one after the other, rank 0 first, up to the first that stops the run, and gives its findings.
/// It always returns.
pub fn analyse_serial<S: Source>(
    alloc: Global,
    parts: &mut [S],
    plan: &Plan,
) -> Result<Findings, RunFault>
    requires few { (1 ≤ length parts.old) × (length parts.old ≤ MOST_RANKS) }
    requires fresh { AllByRecursion (λ part. S.faults part ≡ 0) parts.old }
    ensures analyses { Analyses (mode_of plan.now.sends) (map S.left parts.old) (map S.shows parts.new) result }
    ensures tied { AreTied (map S.left parts.old) (map S.shows parts.new) }
{
    let size = parts.len() as u32;
    let mut node = Node::new(alloc, RankRange { from: 0, to: size }, true)?;
    for rank in 0..size {
        let expect = Expect { rank, size };
        match read_rank(alloc, expect, &mut parts[rank as usize], &mut node) {
            Ok(()) => {}
            Err(fault) => return Err(RunFault::at(rank, fault)),
        }
    }
    let closed = node.close()?;
    let findings = closed.blocked(alloc, size, is_strict(plan.sends))?;
    let _ = findings.as_slice();
    Ok(findings)
}
