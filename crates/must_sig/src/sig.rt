//! Signatures.

ghost use Rattle.std.specs.Prelude.{◌≡◌, ◌+◌, ◌*◌, ◌<◌, ◌≤◌, ◌^◌, min, length, IfOk, Some};
ghost use Rattle.std.specs.Option.{IsSome};
ghost use Rattle.must_type.specs.Tree.{TypeTree, type_map};
ghost use Rattle.must_type.specs.Table.{tree_at};
ghost use Rattle.must_sig.specs.Signatures.{laid, repeated, expansion, signature, basics_of, unlike, fit, difference};
ghost use Rattle.must_sig.specs.Runs.{AreRuns, AreMerged};

use crate::fit::Fit;
use crate::run::Run;
use crate::runs::total;
use crate::steps::Steps;
use crate::unit::{Copies, copies_of};
use crate::walk::first_unlike;
use must_base::NoMemory;
use must_type::{Tree, TypeNo, TypeTable};
use std::alloc::Global;
use std::marker::Model;
use std::sync::Arc;
use std::sync::ledger::Ledger;

/// The signature of a message (MPI 3.1, 4.1.1): the list of its basic types, as runs of one unit and how many times the
/// unit stands there. No two neighbours of its runs are of one basic type. Copies share the runs.
#[derive(Drop)]
pub struct Sig {
    unit: Arc<Vec<Run>>,
    times: u128,
    unit_length: u64,
}

impl Model for Sig {
    ghost use Rattle.std.specs.Prelude.{◌≡◌, ◌*◌, ◌≤◌, ◌^◌, length};
    ghost use Rattle.must_sig.specs.Signatures.{Periods, laid};
    ghost use Rattle.must_sig.specs.Runs.{AreRuns, AreMerged};

    ghost Value = { Periods };

    ghost view = { λ s. record { unit = s.unit.value.items; times = s.times } };

    ghost invariant = { λ s. (s.unit_length ≡ length (laid s.unit.value.items)) × (s.times ≤ s.times * s.unit_length) × (s.times * s.unit_length ≤ 2 ^ 126) × AreRuns s.unit.value.items × AreMerged s.unit.value.items };
}

/// How many times the unit stands in `count` elements that have it `times` times each.
fn times_over(count: u64, times: u64) -> u128
    ensures copies { result ≡ count * times }
{
    u128::from(count) * u128::from(times)
}

/// The unit of one element, and how long it is.
fn one_element(alloc: Global, tree: &Tree) -> Result<(Copies, u64), NoMemory>
    ensures same { IfOk result (λ one. repeated one.0.times (laid one.0.runs.items) ≡ basics_of (type_map tree.now)) }
    ensures short { IfOk result (λ one. one.1 ≤ length (basics_of (type_map tree.now))) }
    ensures length { IfOk result (λ one. one.1 ≡ length (laid one.0.runs.items)) }
    ensures small { IfOk result (λ one. one.0.times * one.1 ≤ 2 ^ 62) }
    ensures some { IfOk result (λ one. one.0.times ≤ one.0.times * one.1) }
    ensures runs { IfOk result (λ one. AreRuns one.0.runs.items × AreMerged one.0.runs.items) }
{
    let _bounds = tree.bounds();
    let copies = copies_of(alloc, tree, 1)?;
    let length = total(copies.runs.as_slice());
    Ok((copies, length))
}

impl Sig {
    /// The signature of `count` elements of a type. Takes memory for the runs of one.
    pub fn of(alloc: Global, table: &TypeTable, no: TypeNo, count: u64) -> Result<Sig, NoMemory>
        requires { IsSome (tree_at table.now.slots no.number) }
        ensures expansion { IfOk result (λ sig. (t : TypeTree) → tree_at table.now.slots no.number ≡ Some t → expansion sig ≡ signature t count) }
        ensures unit { IfOk result (λ sig. (t : TypeTree) → tree_at table.now.slots no.number ≡ Some t → length (laid sig.unit) ≤ length (basics_of (type_map t))) }
        ensures merged { IfOk result (λ sig. AreRuns sig.unit × AreMerged sig.unit) }
        ensures short { IfOk result (λ sig. length (expansion sig) ≤ count * 2 ^ 62) }
    {
        let tree = table.tree(no);
        let (copies, unit_length) = one_element(alloc, tree)?;
        let Copies { runs, times } = copies;
        Ok(Sig {
            unit: Arc::new(alloc, runs)?,
            times: times_over(count, times),
            unit_length,
        })
    }

    /// This signature, which is one element's, `count` times over. It shares the runs, so it takes no memory; `NoMemory`
    /// comes only where there are too many copies to count.
    pub fn repeated(&self, count: u64) -> Result<Sig, NoMemory>
        requires { length (expansion self.now) ≤ 2 ^ 62 }
        ensures expansion { IfOk result (λ sig. expansion sig ≡ repeated count (expansion self.now)) }
        ensures unit { IfOk result (λ sig. sig.unit ≡ self.now.unit) }
    {
        Ok(Sig {
            unit: Arc::try_clone(&self.unit)?,
            times: self.times * u128::from(count),
            unit_length: self.unit_length,
        })
    }

    /// How many basic types it has.
    pub fn len(&self) -> u128
        ensures value { result ≡ length (expansion self.now) }
        ensures small { length (expansion self.now) ≤ 2 ^ 126 }
    {
        self.times * u128::from(self.unit_length)
    }

    fn unit(&self) -> &[Run]
        ensures value { result.now ≡ self.now.unit }
        ensures runs { AreRuns result.now }
    {
        self.unit.as_slice()
    }

    fn times(&self) -> u128
        ensures { result ≡ self.now.times }
    {
        self.times
    }

    fn unit_len(&self) -> u128
        ensures value { result ≡ length (laid self.now.unit) }
        ensures small { result < 2 ^ 64 }
    {
        u128::from(self.unit_length)
    }

    /// An equal signature, which shares the runs, so it takes no memory. `NoMemory` comes only where there are too many
    /// copies to count.
    pub fn copy(&self) -> Result<Sig, NoMemory>
        ensures { IfOk result (λ copy. copy ≡ self.now) }
    {
        Ok(Sig {
            unit: Arc::try_clone(&self.unit)?,
            times: self.times,
            unit_length: self.unit_length,
        })
    }
}

/// How far two signatures need to be compared: over both units, as far as both go.
fn stretch(a: &Sig, b: &Sig) -> u128
    ensures stretch { result ≡ min (min (length (laid a.now.unit) + length (laid b.now.unit)) (length (expansion a.now))) (length (expansion b.now)) }
    ensures small { (length (expansion a.now) ≤ 2 ^ 126) × (length (expansion b.now) ≤ 2 ^ 126) }
{
    let units = a.unit_len() + b.unit_len();
    units.min(a.len()).min(b.len())
}

/// The first place below both lengths where two signatures differ.
fn unlike_place<L: Ledger>(a: &Sig, b: &Sig, steps: &mut Steps<L>) -> Option<u128>
    ensures value { result ≡ unlike (expansion a.now) (expansion b.now) }
    ensures cost { steps.new ≤ steps.old + (length (laid a.now.unit) + length (laid b.now.unit)) }
{
    let far = stretch(a, b);
    first_unlike(a.unit(), a.times(), b.unit(), b.times(), far, steps)
}

/// How what is sent fits what is received. Takes no memory. A step compares a piece of a run with a piece of another; there
/// are at most as many as both units have basic types.
pub fn compare<L: Ledger>(send: &Sig, recv: &Sig, steps: &mut Steps<L>) -> Fit
    ensures value { result ≡ fit (expansion send.now) (expansion recv.now) }
    ensures cost { steps.new ≤ steps.old + (length (laid send.now.unit) + length (laid recv.now.unit)) }
{
    if let Some(at) = unlike_place(send, recv, steps) {
        return Fit::Differs { at };
    }
    let received = recv.len();
    if send.len() <= received {
        Fit::Fits
    } else {
        Fit::TooLong { at: received }
    }
}

/// The first place where two signatures differ; a proper prefix differs at its length. Takes no memory, and steps as
/// `compare` does.
pub fn first_difference<L: Ledger>(a: &Sig, b: &Sig, steps: &mut Steps<L>) -> Option<u128>
    ensures value { result ≡ difference (expansion a.now) (expansion b.now) }
    ensures cost { steps.new ≤ steps.old + (length (laid a.now.unit) + length (laid b.now.unit)) }
{
    if let Some(at) = unlike_place(a, b, steps) {
        return Some(at);
    }
    let length = a.len();
    let other = b.len();
    if length == other {
        None
    } else {
        Some(length.min(other))
    }
}
