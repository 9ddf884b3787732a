//! The needs of a run's calls.

ghost use Rattle.std.specs.Prelude.{◌≡◌, ◌<◌, ◌^◌, ◌++◌, ◌∷◌, [], length, slice_set, replicate, IfOk, OnOk, OnErr};
ghost use Rattle.std.specs.Option.{option_copied};
ghost use Rattle.must_wait.specs.Needs.{calls_of, needs_of};
ghost use Rattle.must_wait.specs.Shared.{IsTable};

use crate::lists::Needs;
use crate::shared::SharedRows;
use must_base::NoMemory;
use std::alloc::Global;
use std::marker::Model;

/// For each rank the needs of its calls in order.
#[derive(Drop)]
pub struct Rows {
    shared: SharedRows,
}

impl Model for Rows {
    ghost use Rattle.std.specs.Prelude.{List};
    ghost use Rattle.must_call.specs.declared.place.Place.{Place};

    ghost Value = { List (List (List (List Place))) };

    ghost view = { λ r. r.shared.needs };
}

impl Rows {
    /// The rows of this many ranks, which have no calls yet.
    pub fn new(alloc: Global, ranks: u32) -> Result<Rows, NoMemory>
        ensures { IfOk result (λ rows. rows ≡ replicate ranks []) }
    {
        Ok(Rows {
            shared: SharedRows::new(alloc, ranks)?,
        })
    }

    /// The rows whose calls share lists. It takes no memory.
    pub fn from_shared(shared: SharedRows) -> Rows
        ensures { result ≡ shared.needs }
    {
        Rows { shared }
    }

    /// Appends the needs of the next call of a rank. After `NoMemory` the rows are as before.
    pub fn push(&mut self, rank: u32, needs: Needs) -> Result<(), NoMemory>
        requires rank { rank < length self.old }
        requires calls { length (calls_of self.old rank) < 2 ^ 31 }
        ensures ok { OnOk result (self.new ≡ slice_set self.old rank (calls_of self.old rank ++ needs ∷ [])) }
        ensures err { OnErr result (self.new ≡ self.old) }
    {
        self.shared.push_own(rank, needs)
    }

    /// How many ranks there are.
    pub fn ranks(&self) -> u32
        ensures { result ≡ length self.now }
    {
        self.shared.ranks()
    }

    /// Lends the needs of a call, none exactly where there is no such call. It takes no memory.
    pub fn needs(&self, rank: u32, call: u32) -> Option<&Needs>
        ensures { option_copied result ≡ needs_of self.now rank call }
    {
        self.shared.needs(rank, call)
    }

    /// Lends the rows with what their calls share.
    pub(crate) fn shared(&self) -> &SharedRows
        ensures needs { result.now.needs ≡ self.now }
        ensures valid { IsTable result.now }
    {
        self.shared.lend()
    }
}
