//! What the calls of a run wait for.

ghost use Rattle.std.specs.Prelude.{◌≡◌, ◌++◌, ◌∷◌, [], ℕ, List, OnOk, IfOk};
ghost use Rattle.must_node.specs.declared.fact.Fact.{Fact};
ghost use Rattle.must_node.specs.RunNeeds.{ranks_from, run_needs};
ghost use Rattle.must_node.specs.Indexed.{Stands};
ghost use Rattle.must_node.specs.Sharing.{AreShared};

use crate::fact::Fact;
use crate::index::Index;
use crate::sharing::Sharing;
use must_base::NoMemory;
use must_wait::Rows;
use std::alloc::Global;

/// The most calls of a rank that rows take.
const MOST_CALLS: u32 = 2_147_483_648;

/// Appends the call of a need to the calls of its rank. Other facts, and needs of other ranks, change nothing.
fn push_fact(
    alloc: Global,
    index: &Index,
    strict: bool,
    fact: &Fact,
    sharing: &mut Sharing,
) -> Result<(), NoMemory>
    ensures shared { (all : List Fact) → Stands index.now all → AreShared sharing.old all → OnOk result (AreShared sharing.new all) }
    ensures needs { (all some : List Fact) (size : ℕ) → Stands index.now all → AreShared sharing.old all → sharing.old.rows.needs ≡ ranks_from strict all some 0 size → OnOk result (sharing.new.rows.needs ≡ ranks_from strict all (some ++ fact.now ∷ []) 0 size) }
{
    match fact {
        Fact::Need { place, ways } => {
            if place.rank >= sharing.rows.ranks() {
                return Ok(());
            }
            if sharing.rows.needs(place.rank, MOST_CALLS - 1).is_some() {
                return Err(NoMemory);
            }
            sharing.push_call(alloc, index, strict, place.rank, ways.items())?;
            Ok(())
        }
        Fact::Message { .. } => Ok(()),
        Fact::Wave { .. } => Ok(()),
    }
}

/// The needs of the calls of a run of so many ranks, which these facts tell. `NoMemory` comes also where a rank has 2^31 calls.
pub(crate) fn run_rows(
    alloc: Global,
    facts: &[Fact],
    size: u32,
    strict: bool,
) -> Result<Rows, NoMemory>
    ensures { IfOk result (λ rows. rows ≡ run_needs strict facts.now size) }
{
    let index = Index::of(alloc, facts)?;
    let mut sharing = Sharing::new(alloc, size)?;
    for fact in facts {
        push_fact(alloc, &index, strict, fact, &mut sharing)?;
    }
    Ok(Rows::from_shared(sharing.rows))
}
