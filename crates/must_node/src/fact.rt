//! What the replay asks of entries.

ghost use Rattle.std.specs.Prelude.{◌≡◌, ◌++◌, ◌∷◌, [], IfOk, OnOk};
ghost use Rattle.must_node.specs.declared.fact.Fact.{Fact};
ghost use Rattle.must_node.specs.Facts.{message_fact, call_fact};

use must_base::NoMemory;
use must_call::Place;
use must_coll::WaveItem;
use must_entry::WayList;
use must_group::CommName;
use must_p2p::{MsgItem, Side, Wild};
use std::alloc::Global;
use std::marker::Model;

/// What the replay asks of an entry.
#[derive(Drop)]
pub enum Fact {
    /// A send, a receive or a probe, with its number among the items of its class.
    Message {
        side: Side,
        name: CommName,
        /// The communicator's handle number at the rank of the item.
        comm: u32,
        source: u32,
        dest: u32,
        tag: i32,
        number: u64,
        place: Place,
        part: u32,
        wild: Wild,
    },
    /// A collective call.
    Wave {
        name: CommName,
        /// The communicator's handle number at the rank of the call.
        comm: u32,
        number: u32,
        place: Place,
    },
    /// What a call waits for.
    Need {
        place: Place,
        ways: WayList,
    },
}

impl Fact {
    /// The fact of an item that has this number.
    pub(crate) fn of_message(item: &MsgItem, number: u64) -> Result<Fact, NoMemory>
        ensures { IfOk result (λ fact. fact ≡ message_fact number item.now) }
    {
        Ok(Fact::Message {
            side: item.side,
            name: item.name.copy()?,
            comm: item.comm,
            source: item.source,
            dest: item.dest,
            tag: item.tag,
            number,
            place: item.place,
            part: item.part,
            wild: item.wild,
        })
    }

    /// The fact of a collective call.
    pub(crate) fn of_call(item: &WaveItem) -> Result<Fact, NoMemory>
        ensures { IfOk result (λ fact. fact ≡ call_fact item.now) }
    {
        Ok(Fact::Wave {
            name: item.name.copy()?,
            comm: item.comm,
            number: item.number,
            place: item.place,
        })
    }
}

/// Facts. Contracts see the list.
#[derive(Drop)]
pub struct FactList {
    items: Vec<Fact>,
}

impl Model for FactList {
    ghost use Rattle.std.specs.Prelude.{List};
    ghost use Rattle.must_node.specs.declared.fact.Fact.{Fact};

    ghost Value = { List Fact };

    ghost view = { λ l. l.items.items };
}

impl FactList {
    /// No facts. It takes no memory.
    pub fn new(alloc: Global) -> FactList
        ensures { result ≡ [] }
    {
        FactList {
            items: Vec::new(alloc),
        }
    }

    /// The facts.
    pub fn items(&self) -> &[Fact]
        ensures { result.now ≡ self.now }
    {
        &self.items
    }

    /// Puts a fact at the end.
    pub fn push(&mut self, fact: Fact) -> Result<(), NoMemory>
        ensures { OnOk result (self.new ≡ self.old ++ fact ∷ []) }
    {
        self.items.push(fact)?;
        Ok(())
    }

    /// Puts the facts of another list at the end.
    pub fn join(&mut self, other: FactList) -> Result<(), NoMemory>
        ensures { OnOk result (self.new ≡ self.old ++ other) }
    {
        let FactList { items } = other;
        let mut items = items;
        self.items.append(&mut items)?;
        Ok(())
    }

    /// Gives the facts. It takes no memory.
    pub fn into_vec(self) -> Vec<Fact>
        ensures { result.items ≡ self }
    {
        let FactList { items } = self;
        items
    }
}
