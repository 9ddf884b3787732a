//! Messages and collective calls of facts, and the keys by which they are found.

ghost use Rattle.std.specs.Prelude.{◌≡◌, IfOk};
ghost use Rattle.must_node.specs.Sharing.{wave_of};
ghost use Rattle.must_node.specs.Partners.{spot_of, meeting_of, call_spot, member_of};

use must_base::NoMemory;
use must_call::Place;
use must_group::CommName;
use must_p2p::Side;

/// A part of a call.
#[derive(Clone, Copy, PartialEq, Eq, PartialOrd, Ord)]
pub(crate) struct Spot {
    pub rank: u32,
    pub call: u32,
    pub part: u32,
}

/// A class of messages, and the number of an item of it: a send and a receive that have the same match. The name stands last, so
/// that two names are compared only where all else is equal.
#[derive(Drop, PartialEq, Eq, PartialOrd, Ord)]
pub(crate) struct Meeting {
    pub source: u32,
    pub dest: u32,
    pub tag: i32,
    pub number: u64,
    pub name: CommName,
}

/// The call of a rank in a wave.
#[derive(Drop, PartialEq, Eq, PartialOrd, Ord)]
pub(crate) struct Member {
    pub number: u32,
    pub rank: u32,
    pub name: CommName,
}

/// A wave: a communicator, and the number of its calls there.
#[derive(Drop, PartialEq, Eq, PartialOrd, Ord)]
pub(crate) struct WaveKey {
    pub number: u32,
    pub name: CommName,
}

/// A send, a receive or a probe, with its number.
#[derive(Drop)]
pub(crate) struct Item {
    pub place: Place,
    pub part: u32,
    pub side: Side,
    pub source: u32,
    pub dest: u32,
    pub tag: i32,
    pub number: u64,
    pub name: CommName,
}

/// A collective call.
#[derive(Drop)]
pub(crate) struct Call {
    pub place: Place,
    pub number: u32,
    pub name: CommName,
}

impl Item {
    /// Where it stands.
    pub(crate) fn spot(&self) -> Spot
        ensures { result ≡ spot_of self.now }
    {
        Spot {
            rank: self.place.rank,
            call: self.place.call,
            part: self.part,
        }
    }

    /// By what it meets its partner.
    pub(crate) fn meeting(&self) -> Result<Meeting, NoMemory>
        ensures { IfOk result (λ meeting. meeting ≡ meeting_of self.now) }
    {
        Ok(Meeting {
            source: self.source,
            dest: self.dest,
            tag: self.tag,
            number: self.number,
            name: self.name.copy()?,
        })
    }
}

impl Call {
    /// Where it stands.
    pub(crate) fn spot(&self) -> Spot
        ensures { result ≡ call_spot self.now }
    {
        Spot {
            rank: self.place.rank,
            call: self.place.call,
            part: 0,
        }
    }

    /// Its wave.
    pub(crate) fn wave(&self) -> Result<WaveKey, NoMemory>
        ensures { IfOk result (λ wave. wave ≡ wave_of self.now) }
    {
        Ok(WaveKey {
            number: self.number,
            name: self.name.copy()?,
        })
    }

    /// The member that made it, in its wave.
    pub(crate) fn member(&self) -> Result<Member, NoMemory>
        ensures { IfOk result (λ member. member ≡ member_of self.now) }
    {
        Ok(Member {
            number: self.number,
            rank: self.place.rank,
            name: self.name.copy()?,
        })
    }
}
