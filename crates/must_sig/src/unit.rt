//! The runs of a type.

ghost use Rattle.std.specs.Prelude.{◌≡◌, ◌+◌, ◌*◌, ◌<◌, ◌≤◌, ◌^◌, [], ◌∷◌, length, slice_get, IfOk, Some, None};
ghost use Rattle.must_type.specs.Maps.{size};
ghost use Rattle.must_type.specs.Making.{IsMadeBy, IsMakeable};
ghost use Rattle.must_type.specs.Tree.{type_map, basic_of, old_maps, height};
ghost use Rattle.must_type.specs.Constructs.{natural};
ghost use Rattle.must_type.specs.Allowed.{IsCount};
ghost use Rattle.must_type.specs.Olds.{HasOneOld};
ghost use Rattle.must_type.specs.declared.construct.Construct.{Construct};
ghost use Rattle.must_type.specs.declared.construct.Construct.TheVariants.{Struct as StructOf};
ghost use Rattle.must_sig.specs.Signatures.{laid, repeated, basics_of};
ghost use Rattle.must_sig.specs.Runs.{AreRuns, AreMerged, StandFor};

use crate::run::Run;
use crate::runs::append_times;
use must_base::NoMemory;
use must_call::Basic;
use must_type::{Construct, StructItem, Tree};
use std::alloc::Global;

/// Runs, and how many times they stand one behind another.
#[derive(Drop)]
pub(crate) struct Copies {
    pub runs: Vec<Run>,
    pub times: u64,
}

/// How many bytes the basic types of a type have.
fn bytes_of(tree: &Tree) -> u64
    ensures value { result ≡ size (type_map tree.now) }
    ensures small { result ≤ 2 ^ 62 }
{
    tree.bounds().size as u64
}

/// The call that made a type that isn't basic.
fn call_of(tree: &Tree) -> &Construct
    requires { basic_of tree.now ≡ None }
    ensures { IsMadeBy tree.now result.now }
{
    match tree.made() {
        Some(call) => call,
        None => unreachable!(),
    }
}

/// The `i`-th old type.
fn old_of(tree: &Tree, i: usize) -> &Tree
    requires { i < length (old_maps tree.now) }
    ensures map { slice_get (old_maps tree.now) i ≡ Some (type_map result.now) }
    ensures lower { height result.now < height tree.now }
{
    match tree.old(i) {
        Some(old) => old,
        None => unreachable!(),
    }
}

/// No runs.
fn no_copies(alloc: Global) -> Copies
    ensures runs { result.runs.items ≡ [] }
    ensures times { result.times ≡ 0 }
{
    Copies {
        runs: Vec::new(alloc),
        times: 0,
    }
}

/// One basic type, so many times over.
fn basic_copies(alloc: Global, basic: Basic, times: u64) -> Result<Copies, NoMemory>
    ensures { IfOk result (λ copies. (copies.runs.items ≡ record { basic = basic; length = 1 } ∷ []) × (copies.times ≡ times)) }
{
    let mut runs = Vec::new(alloc);
    runs.push(Run { basic, length: 1 })?;
    Ok(Copies { runs, times })
}

/// The runs of `n` elements of a type. A call with one old type is walked once, and what has no bytes is not walked.
#[cycle(unit)]
pub(crate) fn copies_of(alloc: Global, tree: &Tree, n: u64) -> Result<Copies, NoMemory>
    requires { n * size (type_map tree.now) ≤ 2 ^ 62 }
    ensures { IfOk result (λ copies. StandFor copies.runs.items copies.times n (basics_of (type_map tree.now))) }
{
    let bytes = bytes_of(tree);
    if bytes == 0 {
        return Ok(no_copies(alloc));
    }
    if let Some(basic) = tree.basic() {
        let copies = basic_copies(alloc, basic, n)?;
        return Ok(copies);
    }
    let call = call_of(tree);
    if let Construct::Struct { blocks } = call {
        let runs = struct_runs(alloc, tree, blocks.items())?;
        return Ok(Copies { runs, times: n });
    }
    let copies = old_copies(alloc, tree, call, bytes, n)?;
    Ok(copies)
}

/// The runs of `n` elements of a type that a call made of one old type: as many of the old type as it has more bytes.
#[cycle(unit)]
fn old_copies(
    alloc: Global,
    tree: &Tree,
    call: &Construct,
    bytes: u64,
    n: u64,
) -> Result<Copies, NoMemory>
    requires short { n * size (type_map tree.now) ≤ 2 ^ 62 }
    requires bytes { bytes ≡ size (type_map tree.now) }
    requires some { 0 < bytes }
    requires made { IsMadeBy tree.now call.now }
    requires one { HasOneOld call.now }
    ensures { IfOk result (λ copies. StandFor copies.runs.items copies.times n (basics_of (type_map tree.now))) }
{
    let old = old_of(tree, 0);
    let copies = copies_of(alloc, old, n * (bytes / bytes_of(old)))?;
    Ok(copies)
}

/// How many elements a block has.
fn blocklength_of(item: &StructItem) -> u64
    requires { IsCount item.now.block }
    ensures { result ≡ natural item.now.block }
{
    item.block as u64
}

/// The runs of one element of a `Struct`.
#[cycle(unit)]
fn struct_runs(alloc: Global, tree: &Tree, blocks: &[StructItem]) -> Result<Vec<Run>, NoMemory>
    requires made { IsMadeBy tree.now (StructOf blocks.now) }
    requires small { size (type_map tree.now) ≤ 2 ^ 62 }
    ensures laid { IfOk result (λ runs. laid runs.items ≡ basics_of (type_map tree.now)) }
    ensures runs { IfOk result (λ runs. AreRuns runs.items) }
    ensures merged { IfOk result (λ runs. AreMerged runs.items) }
{
    let mut runs = Vec::new(alloc);
    for i in 0..blocks.len() {
        let copies = copies_of(alloc, old_of(tree, i), blocklength_of(&blocks[i]))?;
        append_times(&mut runs, copies.runs.as_slice(), copies.times)?;
    }
    Ok(runs)
}
