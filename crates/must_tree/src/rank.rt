//! The stream of one rank, and the walk over its calls.

ghost use Rattle.std.specs.Prelude.{◌≡◌, ◌≤◌, ◌<◌, ℕ, ℤ, List, [], ◌∷◌, ◌++◌, Some, Ok, Err, OnOk, IfErr};
ghost use Rattle.std.specs.Option.{option_map};
ghost use Rattle.must_base.specs.Causes.{Rose};
ghost use Rattle.must_call.specs.declared.call.Call.{Call};
ghost use Rattle.must_format.specs.declared.limits.TheConstants.{MOST_RANKS};
ghost use Rattle.must_rules.specs.Limits.{limit_at};
ghost use Rattle.must_node.specs.declared.node.Node.{Node};
ghost use Rattle.must_local.specs.Walks.{RankTold, rank_by};
ghost use Rattle.must_tree.specs.Told.{IsLeftOf};
ghost use Rattle.must_tree.specs.Ranks.{Gathers, GivesRank, ReadsRank, IsFaultOf, IsLimitFault};
ghost use Rattle.must_tree.specs.Beside.{Beside, Walked, AllTaken};
ghost use Rattle.must_codec.specs.Views.{IsOpen, Leaves};
ghost use Rattle.must_format.specs.Stream.{whose};

use must_base::{NoMemory, Source};
use must_call::Call;
use must_codec::StreamReader;
use must_format::{Expect, LEAST_TAG_UB, StreamFault};
use must_local::{RankWalk, WalkFault};
use must_node::Node;
use std::alloc::Global;

/// Takes the next call of a rank's stream, and gives its batch to the node. Where the call reaches a limit, the fault has the offset
/// of its record, `at`.
fn take_call(walk: &mut RankWalk, node: &mut Node, at: u64, call: &Call) -> Result<(), StreamFault>
    ensures took { OnOk result ((told : RankTold) (calls : List Call) (first : Node) → Gathers told walk.old calls first node.old
        → Gathers told walk.new (calls ++ call.now ∷ []) first node.new) }
    ensures over { IfErr result (λ fault. (told : RankTold) (version : ℕ) (calls : List Call) (first : Node) → Gathers told walk.old calls first node.old
        → IsLimitFault (limit_at (rank_by version told) calls call.now) at fault) }
    ensures unread { result ≡ Err StreamFault.Read → ⊥ }
{
    // A reader judges the numbers of handles and the members of communicators, and gives at most 8,388,608 calls; where its
    // source tells no bytes, no clause says so.
    if !walk.may_step(call) {
        return Err(StreamFault::NoMemory);
    }
    match walk.step(call) {
        Ok(batch) => {
            node.take(batch)?;
            Ok(())
        }
        Err(WalkFault::TooWide { limit, .. }) => Err(StreamFault::Bound { at, limit }),
        Err(WalkFault::NoMemory) => Err(StreamFault::NoMemory),
    }
}

/// Ends the walk over a rank's calls, and gives its last batch to the node.
fn end_walk(walk: RankWalk, node: &mut Node) -> Result<(), NoMemory>
    ensures { OnOk result ((told : RankTold) (version : ℕ) (calls : List Call) (first : Node) → Gathers told walk calls first node.old
        → GivesRank (rank_by version told) calls first node.new) }
{
    let batch = walk.finish()?;
    node.take(batch)?;
    Ok(())
}

/// The greatest tag by the header. A reader that gave a call or the end has accepted a header.
fn greatest_tag(reader: &StreamReader) -> i32
    ensures { (tag : ℤ) → option_map (λ h. h.tag_ub) reader.now.header ≡ Some tag → result ≡ tag }
{
    match reader.tag_ub() {
        Some(tag) => tag,
        None => LEAST_TAG_UB,
    }
}

/// Reads the calls of a stream up to its end, and takes each into the walk.
fn read_calls<S: Source>(
    alloc: Global,
    expect: Expect,
    src: &mut S,
    reader: &mut StreamReader,
    walk: &mut RankWalk,
    node: &mut Node,
) -> Result<(), StreamFault>
    requires open { IsOpen reader.old.phase }
    requires whose { reader.old.expect ≡ whose expect.rank expect.size }
    ensures done { OnOk result ((bytes : List ℕ) (first : Node) → Beside expect.rank expect.size bytes (S.left src.old) reader.old walk.old first node.old
        → AllTaken expect.rank expect.size bytes (S.left src.new) walk.new first node.new) }
    ensures refused { IfErr result (λ fault. (bytes : List ℕ) (first : Node) → Beside expect.rank expect.size bytes (S.left src.old) reader.old walk.old first node.old
        → IsFaultOf expect.rank expect.size bytes (S.left src.new) fault) }
    ensures tied { (bytes : List ℕ) (first : Node) → Beside expect.rank expect.size bytes (S.left src.old) reader.old walk.old first node.old
        → IsLeftOf bytes (S.left src.new) }
    ensures read { result ≡ Err StreamFault.Read → Rose (S.faults src.old) (S.faults src.new) }
{
    for _ in 0..u32::MAX {
        let next = reader.next(alloc, src)?;
        match next {
            None => return Ok(()),
            Some(call) => take_call(walk, node, reader.at(), &call)?,
        }
    }
    // A stream has at most 8,388,608 calls.
    Err(StreamFault::NoMemory)
}

/// Takes what the reader gave first into the walk, and then all other calls of the stream.
fn walk_stream<S: Source>(
    alloc: Global,
    expect: Expect,
    src: &mut S,
    reader: &mut StreamReader,
    first_call: Option<Call>,
    walk: &mut RankWalk,
    node: &mut Node,
) -> Result<(), StreamFault>
    requires leaves { Leaves reader.old.phase (Ok first_call) }
    requires whose { reader.old.expect ≡ whose expect.rank expect.size }
    ensures done { OnOk result ((bytes : List ℕ) (first : Node) → Walked expect.rank expect.size bytes (S.left src.old) reader.old first_call walk.old first node.old
        → AllTaken expect.rank expect.size bytes (S.left src.new) walk.new first node.new) }
    ensures refused { IfErr result (λ fault. (bytes : List ℕ) (first : Node) → Walked expect.rank expect.size bytes (S.left src.old) reader.old first_call walk.old first node.old
        → IsFaultOf expect.rank expect.size bytes (S.left src.new) fault) }
    ensures tied { (bytes : List ℕ) (first : Node) → Walked expect.rank expect.size bytes (S.left src.old) reader.old first_call walk.old first node.old
        → IsLeftOf bytes (S.left src.new) }
    ensures read { result ≡ Err StreamFault.Read → Rose (S.faults src.old) (S.faults src.new) }
{
    match first_call {
        None => Ok(()),
        Some(call) => {
            take_call(walk, node, reader.at(), &call)?;
            read_calls(alloc, expect, src, reader, walk, node)
        }
    }
}

/// Reads the stream of a rank to its end, and gives the node what its calls give.
pub fn read_rank<S: Source>(
    alloc: Global,
    expect: Expect,
    src: &mut S,
    node: &mut Node,
) -> Result<(), StreamFault>
    requires size { (1 ≤ expect.size) × (expect.size ≤ MOST_RANKS) }
    requires rank { expect.rank < expect.size }
    ensures done { OnOk result ((bytes : List ℕ) → S.left src.old ≡ Some bytes
        → ReadsRank expect.rank expect.size bytes node.old node.new × (S.left src.new ≡ Some [])) }
    ensures refused { IfErr result (λ fault. (bytes : List ℕ) → S.left src.old ≡ Some bytes
        → IsFaultOf expect.rank expect.size bytes (S.left src.new) fault) }
    ensures tied { (bytes : List ℕ) → S.left src.old ≡ Some bytes → IsLeftOf bytes (S.left src.new) }
    ensures read { result ≡ Err StreamFault.Read → Rose (S.faults src.old) (S.faults src.new) }
{
    let mut reader = StreamReader::new(alloc, expect)?;
    let next = reader.next(alloc, src)?;
    let tag_ub = greatest_tag(&reader);
    let mut walk = RankWalk::new(alloc, expect.rank, expect.size, tag_ub)?;
    walk_stream(alloc, expect, src, &mut reader, next, &mut walk, node)?;
    end_walk(walk, node)?;
    Ok(())
}
