//! Nodes.

ghost use Rattle.std.specs.Prelude.{◌≡◌, ◌++◌, ◌∷◌, [], Bool, List, OnOk, IfOk};
ghost use Rattle.must_p2p.specs.Items.{Orderly};
ghost use Rattle.must_coll.specs.Waves as waves;
ghost use Rattle.must_entry.specs.declared.entry.Entry.{Entry};
ghost use Rattle.must_entry.specs.declared.range.RankRange.{RankRange};
ghost use Rattle.must_entry.specs.declared.batch.Batch.{Batch};
ghost use Rattle.must_entry.specs.Entries.{entries_of, messages, calls};
ghost use Rattle.must_entry.specs.Lawful.{IsLawful};
ghost use Rattle.must_node.specs.Closing.{Settles};
ghost use Rattle.must_node.specs.Inner.{inner, outer};
ghost use Rattle.must_node.specs.Nodes.{StandsFor, Hands, up};
ghost use Rattle.must_node.specs.Settling.{Knows};

use crate::closed::Closed;
use crate::inner::is_inner;
use crate::settled::Settled;
use must_base::NoMemory;
use must_entry::{Batch, Entry, ItemList, RankRange};
use std::alloc::Global;
use std::collections::VecDeque;

/// A node of a range of ranks: it takes batches, settles the entries that are inner to the range, and has the rest ready to be
/// handed up. At a root all entries are inner.
///
/// Contracts say what the node does where it stands for the batches taken so far, and these are lawful for its range. What a rank
/// hands up comes in the order in which it was taken.
#[derive(Drop)]
pub struct Node {
    alloc: Global,
    range: RankRange,
    root: bool,
    settled: Settled,
    ready: VecDeque<Batch>,
}

/// Settles the inner entries, and gives the others.
fn sort_out(
    alloc: Global,
    root: bool,
    range: RankRange,
    settled: &mut Settled,
    entries: Vec<Entry>,
) -> Result<Vec<Entry>, NoMemory>
    ensures outer { IfOk result (λ left. left.items ≡ outer root range entries.items) }
    ensures inner { (g : List Entry) → Knows settled.old g → Orderly (messages (g ++ inner root range entries.items)) → waves.Orderly (calls (g ++ inner root range entries.items)) → OnOk result (Knows settled.new (g ++ inner root range entries.items)) }
{
    let mut left = Vec::new(alloc);
    for entry in entries {
        if is_inner(root, range, &entry) {
            settled.settle(entry)?;
        } else {
            left.push(entry)?;
        }
    }
    Ok(left)
}

impl Node {
    /// A node that was given nothing. It takes no memory.
    pub fn new(alloc: Global, range: RankRange, root: bool) -> Result<Node, NoMemory>
        ensures { IfOk result (λ node. StandsFor node range root [] []) }
    {
        Ok(Node {
            alloc,
            range,
            root,
            settled: Settled::new(alloc)?,
            ready: VecDeque::new(alloc),
        })
    }

    /// Settles the inner entries of a batch, and makes the others ready.
    fn receive(&mut self, batch: Batch) -> Result<(), NoMemory>
        ensures settled { (taken : List Batch) → Knows self.old.settled (inner self.old.root self.old.range (entries_of taken)) → IsLawful self.old.range (taken ++ batch ∷ []) → OnOk result (Knows self.new.settled (inner self.old.root self.old.range (entries_of (taken ++ batch ∷ [])))) }
        ensures ready { OnOk result (self.new.ready.items ≡ self.old.ready.items ++ up self.old.root self.old.range batch) }
        ensures range { OnOk result ((self.new.range ≡ self.old.range) × (self.new.root ≡ self.old.root)) }
    {
        let Batch {
            rank,
            entries,
            last,
        } = batch;
        let left = sort_out(
            self.alloc,
            self.root,
            self.range,
            &mut self.settled,
            entries.into_vec(),
        )?;
        if self.root || (!last && left.is_empty()) {
            return Ok(());
        }
        self.ready.push_back(Batch {
            rank,
            entries: ItemList::from_vec(left),
            last,
        })?;
        Ok(())
    }

    /// Takes a batch: settles its inner entries, and makes one batch ready of the others, in order and with the same `last`. A
    /// batch without others is left out, unless it is the last. At a root no batch is made ready. After `NoMemory` the node is
    /// only to be dropped.
    pub fn take(&mut self, batch: Batch) -> Result<(), NoMemory>
        ensures { (range : RankRange) (root : Bool) (taken handed : List Batch) → StandsFor self.old range root taken handed → IsLawful range (taken ++ batch ∷ []) → OnOk result (StandsFor self.new range root (taken ++ batch ∷ []) handed) }
    {
        self.receive(batch)
    }

    /// The first of the batches that stand ready, which then is handed up; none exactly where none stands ready. It takes no
    /// memory.
    pub fn hand_up(&mut self) -> Option<Batch>
        ensures { (range : RankRange) (root : Bool) (taken handed : List Batch) → StandsFor self.old range root taken handed → Hands self.new range root taken handed result }
    {
        self.ready.pop_front()
    }

    /// The rows and the facts of the inner entries.
    pub fn close(self) -> Result<Closed, NoMemory>
        ensures { (range : RankRange) (root : Bool) (taken handed : List Batch) → StandsFor self range root taken handed → IsLawful range taken → IfOk result (λ closed. Settles closed (inner root range (entries_of taken))) }
    {
        let Node {
            alloc: _,
            range: _,
            root: _,
            settled,
            ready: _,
        } = self;
        settled.close()
    }
}
