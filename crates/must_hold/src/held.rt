//! Operations that are held back.

use must_call::Status3;
use must_messages::Asked;
use must_p2p::MsgItem;

/// An operation that isn't settled.
#[derive(Drop)]
pub struct Pending {
    /// The call that began it.
    pub call: u32,
    pub part: u32,
    /// None where it is done in its call.
    pub request: Option<u32>,
    pub asked: Asked,
    /// A later call asked to cancel its request.
    pub cancel: bool,
}

/// An operation whose item isn't given yet.
#[derive(Drop)]
pub enum Held {
    Open(Pending),
    /// Its item, where it has one.
    Settled(Option<MsgItem>),
}

/// How an operation ended.
#[derive(Clone, Copy, Debug, PartialEq, Eq)]
pub struct End {
    /// The first status that was recorded for it.
    pub status: Option<Status3>,
    /// The call that completed it.
    pub done: Option<u32>,
    /// One of its statuses breaks S1.
    pub breaks: bool,
}

/// What an operation adds to an alternative of a call that waits for it.
#[derive(Clone, Copy, Debug, PartialEq, Eq)]
pub enum Need {
    Nothing,
    /// The partner of an operation; `standard` where it is needed only if no send is buffered.
    Partner {
        call: u32,
        part: u32,
        standard: bool,
    },
    /// What never comes.
    Never,
    /// What never comes: nothing completed a receive from any source or of any tag (rule N1).
    Unmet {
        call: u32,
        part: u32,
    },
}

/// An operation that was settled: its number among those of its rank, and what it needs.
#[derive(Clone, Copy, Debug, PartialEq, Eq)]
pub struct Settling {
    pub number: u64,
    pub need: Need,
}
