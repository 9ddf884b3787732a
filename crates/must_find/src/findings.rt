//! Findings in order.

ghost use Rattle.std.specs.Prelude.{◌≡◌, ◌≤◌, ◌<◌, ◌⊎◌, ◌↔◌, [], length, MatchOption, IfOk, OnOk, OnErr, slice_get};
ghost use Rattle.std.specs.List.{insert};
ghost use Rattle.std.specs.Option.{option_copied};
ghost use Rattle.must_find.specs.declared.finding.Finding.{Finding};
ghost use Rattle.must_base.specs.Listing.{Has, Rises};
ghost use Rattle.must_find.specs.Order.{by_all};
ghost use Rattle.must_find.specs.Merged.{IsMerged};

use crate::finding::Finding;
use must_base::NoMemory;
use std::alloc::Global;
use std::cmp::Ordering;
use std::marker::Model;

/// Findings in the order of `Finding::cmp`, each once. Contracts see the list.
#[derive(Drop)]
pub struct Findings {
    items: Vec<Finding>,
}

impl Model for Findings {
    ghost use Rattle.std.specs.Prelude.{List};
    ghost use Rattle.must_find.specs.declared.finding.Finding.{Finding};
    ghost use Rattle.must_base.specs.Listing.{Rises};
    ghost use Rattle.must_find.specs.Order.{by_all};

    ghost Value = { List Finding };

    ghost view = { λ a. a.items.items };

    ghost invariant = { λ a. Rises by_all a.items.items };
}

/// Where a finding goes in, unless it is there.
fn gap(items: &[Finding], f: &Finding) -> Option<usize>
    requires { Rises by_all items.now }
    ensures { MatchOption result (Has items.now f.now) (λ i. (i ≤ length items.now) × Rises by_all (insert items.now i f.now)) }
{
    let mut low = 0;
    let mut high = items.len();
    // The last item is asked first, since findings mostly come in order.
    let mut middle = high.saturating_sub(1);
    while low < high {
        match items[middle].cmp(f) {
            Ordering::Less => low = middle + 1,
            Ordering::Equal => return None,
            Ordering::Greater => high = middle,
        }
        middle = low + (high - low) / 2;
    }
    Some(low)
}

/// The findings of two lists that rise, in one list that rises, each once. It goes through both lists once.
fn merged(alloc: Global, xs: &[Finding], ys: &[Finding]) -> Result<Vec<Finding>, NoMemory>
    requires { Rises by_all xs.now × Rises by_all ys.now }
    ensures { IfOk result (λ out. IsMerged by_all xs.now ys.now out.items) }
{
    let mut out = Vec::new(alloc);
    let mut i = 0;
    let mut j = 0;
    while i < xs.len() && j < ys.len() {
        match xs[i].cmp(&ys[j]) {
            Ordering::Less => {
                out.push(xs[i])?;
                i += 1;
            }
            Ordering::Greater => {
                out.push(ys[j])?;
                j += 1;
            }
            Ordering::Equal => {
                out.push(xs[i])?;
                i += 1;
                j += 1;
            }
        }
    }
    let (_, rest_of_xs) = xs.split_at(i);
    let (_, rest_of_ys) = ys.split_at(j);
    out.extend_from_slice(rest_of_xs)?;
    out.extend_from_slice(rest_of_ys)?;
    Ok(out)
}

impl Findings {
    /// No findings yet. It takes no memory.
    pub fn new(alloc: Global) -> Findings
        ensures { result ≡ [] }
    {
        Findings {
            items: Vec::new(alloc),
        }
    }

    /// How many there are.
    pub fn len(&self) -> usize
        ensures { result ≡ length self.now }
    {
        self.items.len()
    }

    /// The finding with this index, from 0; none exactly where there are no more.
    pub fn get(&self, i: usize) -> Option<&Finding>
        ensures { option_copied result ≡ slice_get self.now i }
    {
        self.items.get(i)
    }

    /// Lends the findings in order.
    pub fn as_slice(&self) -> &[Finding]
        ensures items { result.now ≡ self.now }
        ensures rises { Rises by_all self.now }
    {
        &self.items
    }

    /// Puts a finding at its place. One that is there already isn't put in again.
    pub fn add(&mut self, f: Finding) -> Result<(), NoMemory>
        ensures ok { OnOk result ((x : Finding) → Has self.new x ↔ ((x ≡ f) ⊎ Has self.old x)) }
        ensures err { OnErr result (self.new ≡ self.old) }
    {
        match gap(&self.items, &f) {
            None => Ok(()),
            Some(at) => {
                self.items.insert(at, f)?;
                Ok(())
            }
        }
    }

    /// Puts in the findings of another list, each once, in time linear in both.
    pub fn merge(&mut self, other: &Findings) -> Result<(), NoMemory>
        ensures ok { OnOk result ((x : Finding) → Has self.new x ↔ (Has self.old x ⊎ Has other.now x)) }
        ensures err { OnErr result (self.new ≡ self.old) }
    {
        self.items = merged(*self.items.allocator(), &self.items, &other.items)?;
        Ok(())
    }
}
