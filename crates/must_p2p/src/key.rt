//! Keys of queues.

ghost use Rattle.std.specs.Prelude.{◌≡◌};
ghost use Rattle.must_p2p.specs.Items.{class_of};
ghost use Rattle.must_p2p.specs.Standing.{key_of};

use crate::item::MsgItem;

/// A class, with the number of the name instead of the name. It is ordered by its fields in this order.
#[derive(Clone, Copy, PartialEq, Eq, PartialOrd, Ord)]
pub(crate) struct Key {
    pub source: u32,
    pub dest: u32,
    pub tag: i32,
    pub name: u32,
}

impl MsgItem {
    /// The key of its class, whose name has this number.
    pub(crate) fn key(&self, name: u32) -> Key
        ensures { result ≡ key_of (class_of self.now) name }
    {
        Key {
            source: self.source,
            dest: self.dest,
            tag: self.tag,
            name,
        }
    }
}
