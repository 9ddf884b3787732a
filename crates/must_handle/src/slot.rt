//! What is kept of a made handle.

ghost use Rattle.std.specs.Prelude.{◌≡◌, not};
ghost use Rattle.must_rules.specs.Search.{only_if};
ghost use Rattle.must_rules.specs.Making.{same_class};

use must_call::Class;

/// A handle that a call made.
#[derive(Clone, Copy, Drop)]
pub struct Slot {
    pub class: Class,
    /// The call that made it.
    pub made: u32,
    /// The call that freed it, or completed it for good.
    pub freed: Option<u32>,
    /// A type that was committed.
    pub committed: bool,
    /// A request that stays when it is completed.
    pub persistent: bool,
    /// The call that started a request, unless it was completed since.
    pub start: Option<u32>,
}

/// Whether two classes are the same.
pub fn is_same(class: Class, other: Class) -> bool
    ensures { result ≡ same_class class other }
{
    match (class, other) {
        (Class::Comm, Class::Comm) => true,
        (Class::Group, Class::Group) => true,
        (Class::Datatype, Class::Datatype) => true,
        (Class::Operation, Class::Operation) => true,
        (Class::Request, Class::Request) => true,
        _ => false,
    }
}

/// Call `k` for a handle that isn't persistent: it starts a request by making it, and frees it by completing it.
pub fn unless_persistent(persistent: bool, k: u32) -> Option<u32>
    ensures { result ≡ only_if (not persistent) k }
{
    if persistent { None } else { Some(k) }
}
