//! What waits for a partner.

ghost use Rattle.std.specs.Prelude.{◌≡◌};
ghost use Rattle.must_p2p.specs.Queues.{waiting};

use crate::item::MsgItem;
use must_call::Place;
use must_sig::Sig;

/// What an item keeps while it waits: its class is the key of its queue.
#[derive(Drop)]
pub(crate) struct Waiting {
    pub place: Place,
    pub part: u32,
    pub sig: Sig,
}

impl MsgItem {
    pub(crate) fn into_waiting(self) -> Waiting
        ensures { result ≡ waiting self }
    {
        Waiting {
            place: self.place,
            part: self.part,
            sig: self.sig,
        }
    }
}
