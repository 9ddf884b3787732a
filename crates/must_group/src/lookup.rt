//! Ranks to look up.

ghost use Rattle.std.specs.Prelude.{◌≡◌, ℕ, IfOk, nat_eq};
ghost use Rattle.std.specs.Set.{is_member};

use must_base::NoMemory;
use std::alloc::Global;
use std::marker::Model;

/// Ranks in rising order, to tell in logarithmic time whether one is there.
#[derive(Drop)]
pub(crate) struct Lookup {
    rising: Vec<u32>,
}

impl Model for Lookup {
    ghost use Rattle.std.specs.Prelude.{List, ℕ};
    ghost use Rattle.std.specs.List.Sorted.{IsNonDecreasing};

    ghost Value = { List ℕ };

    ghost view = { λ l. l.rising.items };

    ghost invariant = { λ l. IsNonDecreasing l.rising.items };
}

impl Lookup {
    pub(crate) fn of(alloc: Global, ranks: &[u32]) -> Result<Lookup, NoMemory>
        ensures { IfOk result (λ l. (rank : ℕ) → is_member nat_eq l rank ≡ is_member nat_eq ranks.now rank) }
    {
        let mut rising = ranks.to_vec(alloc)?;
        rising.sort_unstable();
        Ok(Lookup { rising })
    }

    pub(crate) fn contains(&self, rank: u32) -> bool
        ensures { result ≡ is_member nat_eq self.now rank }
    {
        self.rising.binary_search(&rank).is_ok()
    }
}
