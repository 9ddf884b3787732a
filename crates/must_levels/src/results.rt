//! What nodes close with, put together.

ghost use Rattle.std.specs.Prelude.{◌≡◌, [], ◌++◌, Bool, List, Some, IfOk};
ghost use Rattle.must_entry.specs.declared.range.RankRange.{RankRange};
ghost use Rattle.must_entry.specs.declared.batch.Batch.{Batch};
ghost use Rattle.must_entry.specs.Entries.{entries_of};
ghost use Rattle.must_entry.specs.Lawful.{IsLawful};
ghost use Rattle.must_node.specs.Inner.{inner};
ghost use Rattle.must_node.specs.Nodes.{StandsFor};
ghost use Rattle.must_levels.specs.Telling.{AreBoth, Adds, IsNoMemory, Together, as_child};

use crate::fault::RunFault;
use must_node::{Closed, Node};

/// The rows and the facts of both.
fn join_closed(first: Option<Closed>, second: Option<Closed>) -> Result<Option<Closed>, RunFault>
    ensures both { IfOk result (λ all. AreBoth first second all) }
    ensures err { IsNoMemory result }
{
    let Some(mut all) = first else {
        return Ok(second);
    };
    let Some(other) = second else {
        return Ok(Some(all));
    };
    all.join(other)?;
    Ok(Some(all))
}

/// Closes a node, and adds that to what its children closed with.
pub(crate) fn add_node(below: Option<Closed>, node: Node) -> Result<Closed, RunFault>
    ensures adds { (range : RankRange) (root : Bool) (taken handed : List Batch) → StandsFor node range root taken handed → IsLawful range taken → IfOk result (λ all. Adds below (inner root range (entries_of taken)) (Some all)) }
    ensures err { IsNoMemory result }
{
    let closed = node.close()?;
    let Some(mut all) = below else {
        return Ok(closed);
    };
    all.join(closed)?;
    Ok(all)
}

/// The answer of a node, as that of a child.
pub(crate) fn as_child(answer: Result<Closed, RunFault>) -> Result<Option<Closed>, RunFault>
    ensures { result ≡ as_child answer }
{
    match answer {
        Ok(closed) => Ok(Some(closed)),
        Err(fault) => Err(fault),
    }
}

/// The answer of two that ran beside each other: the first fault decides, and without a fault it is what both closed with.
pub(crate) fn join_results(
    first: Result<Option<Closed>, RunFault>,
    second: Result<Option<Closed>, RunFault>,
) -> Result<Option<Closed>, RunFault>
    ensures { Together first second result }
{
    match first {
        Err(fault) => Err(fault),
        Ok(mine) => match second {
            Err(fault) => Err(fault),
            Ok(others) => join_closed(mine, others),
        },
    }
}
