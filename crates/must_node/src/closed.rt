//! What a node closes with.

ghost use Rattle.std.specs.Prelude.{◌≡◌, ◌⊎◌, ◌↔◌, ◌++◌, OnOk, IfOk};
ghost use Rattle.must_base.specs.Listing.{Has};
ghost use Rattle.must_find.specs.declared.finding.Finding.{Finding};
ghost use Rattle.must_node.specs.RunNeeds.{run_needs};
ghost use Rattle.must_node.specs.Waits.{IsWaitRow};

use crate::fact::FactList;
use crate::needs::run_rows;
use crate::waits::add_waits;
use must_base::NoMemory;
use must_find::Findings;
use must_wait::Rows;
use std::alloc::Global;

/// The rows and the facts of some entries.
#[derive(Drop)]
pub struct Closed {
    pub findings: Findings,
    pub facts: FactList,
}

/// What the calls of a run of so many ranks wait for. The facts go here, since the replay asks the rows alone.
fn rows_of(alloc: Global, facts: FactList, size: u32, strict: bool) -> Result<Rows, NoMemory>
    ensures { IfOk result (λ rows. rows ≡ run_needs strict facts size) }
{
    run_rows(alloc, facts.items(), size, strict)
}

impl Closed {
    /// Takes over the rows and the facts of another. After `NoMemory` this is only to be dropped.
    pub fn join(&mut self, other: Closed) -> Result<(), NoMemory>
        ensures findings { OnOk result ((f : Finding) → Has self.new.findings f ↔ (Has self.old.findings f ⊎ Has other.findings f)) }
        ensures facts { OnOk result (self.new.facts ≡ self.old.facts ++ other.facts) }
    {
        let Closed { findings, facts } = other;
        self.findings.merge(&findings)?;
        self.facts.join(facts)
    }

    /// The rows with W1 and W2 of a run of `size` ranks, whose facts these are: they tell at which calls ranks are blocked.
    ///
    /// Under `strict` a standard send waits for its receive; else it never waits. `NoMemory` comes where memory is short, and
    /// where a rank has 2^31 calls or more.
    pub fn blocked(self, alloc: Global, size: u32, strict: bool) -> Result<Findings, NoMemory>
        ensures { IfOk result (λ found. (f : Finding) → Has found f ↔ (Has self.findings f ⊎ IsWaitRow (run_needs strict self.facts size) f)) }
    {
        let Closed { findings, facts } = self;
        let rows = rows_of(alloc, facts, size, strict)?;
        let mut found = findings;
        add_waits(alloc, &rows, &mut found)?;
        Ok(found)
    }
}
