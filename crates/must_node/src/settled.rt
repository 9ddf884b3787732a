//! What is settled of inner entries.

ghost use Rattle.std.specs.Prelude.{◌++◌, ◌∷◌, [], List, OnOk, IfOk};
ghost use Rattle.must_p2p.specs.Items.{Orderly};
ghost use Rattle.must_coll.specs.Waves as waves;
ghost use Rattle.must_entry.specs.declared.entry.Entry.{Entry};
ghost use Rattle.must_entry.specs.Entries.{messages, calls};
ghost use Rattle.must_node.specs.Closing.{Settles};
ghost use Rattle.must_node.specs.Settling.{Knows};

use crate::closed::Closed;
use crate::fact::{Fact, FactList};
use must_base::NoMemory;
use must_coll::Waves;
use must_entry::Entry;
use must_find::Findings;
use must_p2p::Channels;
use std::alloc::Global;

/// The messages and the collective calls that wait, and the rows and facts of the inner entries so far.
#[derive(Drop)]
pub(crate) struct Settled {
    pub channels: Channels,
    pub waves: Waves,
    pub findings: Findings,
    pub facts: FactList,
}

impl Settled {
    /// No entries.
    pub(crate) fn new(alloc: Global) -> Result<Settled, NoMemory>
        ensures { IfOk result (λ settled. Knows settled []) }
    {
        Ok(Settled {
            channels: Channels::new(alloc)?,
            waves: Waves::new(alloc)?,
            findings: Findings::new(alloc),
            facts: FactList::new(alloc),
        })
    }

    /// Settles an inner entry. After `NoMemory` this is only to be dropped.
    pub(crate) fn settle(&mut self, entry: Entry) -> Result<(), NoMemory>
        ensures { (g : List Entry) → Knows self.old g → Orderly (messages (g ++ entry ∷ [])) → waves.Orderly (calls (g ++ entry ∷ [])) → OnOk result (Knows self.new (g ++ entry ∷ [])) }
    {
        match entry {
            Entry::Row { finding } => {
                self.findings.add(finding)?;
                Ok(())
            }
            Entry::Need { place, ways } => {
                self.facts.push(Fact::Need { place, ways })?;
                Ok(())
            }
            Entry::Wave { item } => {
                self.facts.push(Fact::of_call(&item)?)?;
                self.waves.put(item, &mut self.findings)?;
                Ok(())
            }
            Entry::Message { item } => {
                let number = self.channels.next_number(&item);
                self.facts.push(Fact::of_message(&item, number)?)?;
                self.channels.put(item, &mut self.findings)?;
                Ok(())
            }
        }
    }

    /// All rows and facts.
    pub(crate) fn close(self) -> Result<Closed, NoMemory>
        ensures { (g : List Entry) → Knows self g → Orderly (messages g) → waves.Orderly (calls g) → IfOk result (λ closed. Settles closed g) }
    {
        let Settled {
            channels,
            waves,
            findings,
            facts,
        } = self;
        let mut findings = findings;
        channels.close(&mut findings)?;
        waves.close(&mut findings)?;
        Ok(Closed { findings, facts })
    }
}
