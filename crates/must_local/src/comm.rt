//! A communicator as a rank knows it.

ghost use Rattle.std.specs.Prelude.{◌≡◌, ◌<◌, ◌^◌, length, OnOk};
ghost use Rattle.must_local.specs.Counted.{one_more};

use must_base::NoMemory;
use must_group::CommName;
use std::marker::Model;

/// A sound communicator.
#[derive(Drop)]
pub struct Comm {
    name: CommName,
    /// How many collective calls were made on it.
    calls: u32,
}

impl Model for Comm {
    ghost use Rattle.std.specs.Prelude.{◌<◌, ◌^◌, length};
    ghost use Rattle.must_local.specs.Counted.{Counted};

    ghost Value = { Counted };

    ghost view = { λ c. record { name = c.name; calls = c.calls } };

    ghost invariant = { λ c. length c.name.members < 2 ^ 32 };
}

impl Comm {
    /// A communicator on which no call was made yet.
    pub fn new(name: CommName) -> Comm
        requires { length name.members < 2 ^ 32 }
        ensures { result ≡ record { name = name; calls = 0 } }
    {
        Comm { name, calls: 0 }
    }

    /// The name.
    pub fn name(&self) -> &CommName
        ensures name { result.now ≡ self.now.name }
        ensures few { length self.now.name.members < 2 ^ 32 }
    {
        &self.name
    }

    /// How many collective calls were made on it: the number of the next.
    pub fn calls(&self) -> u32
        ensures { result ≡ self.now.calls }
    {
        self.calls
    }

    /// One call more.
    pub fn count(&mut self) -> Result<(), NoMemory>
        ensures { OnOk result (self.new ≡ one_more self.old) }
    {
        self.calls = self.calls.checked_add(1).ok_or(NoMemory)?;
        Ok(())
    }
}
