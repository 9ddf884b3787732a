//! The addresses of a part.

ghost use Rattle.std.specs.Prelude.{◌≡◌, ◌||◌, ◌++◌, ℤ, [], ◌∷◌, List, map, Some, IfOk};
ghost use Rattle.must_type.specs.Tree.{TypeTree};
ghost use Rattle.must_type.specs.Table.{tree_at};
ghost use Rattle.std.specs.Option.{IsSome};
ghost use Rattle.must_span.specs.Bytes.{AreBytes, message_map};
ghost use Rattle.must_rules.specs.Overlaps.{overlap};
ghost use Rattle.must_rules.specs.Parts as parts;
ghost use Rattle.must_parts.specs.Telling.{block_seen};
ghost use Rattle.must_parts.specs.Laying.{IsLaid};

use crate::blocks::Block;
use must_base::NoMemory;
use must_span::Spans;
use must_type::{TypeNo, TypeTable};
use std::alloc::Global;

/// The greatest count of elements that is laid out. No call has as many: it has 1,024 members at most, and 2^31 elements for each.
const MOST_COUNT: u64 = 0x1_0000_0000_0000;

/// Addresses are laid out from within this distance of 0. No call is further.
const FARTHEST: u128 = 0x1_0000_0000_0000_0000_0000_0000;

/// The addresses of some blocks.
#[derive(Drop)]
pub struct Laid {
    pub spans: Spans,
    /// In one of the blocks two entries share a byte.
    pub overlaps: bool,
}

/// Whether two entries of a block share a byte, which takes these addresses: it has fewer than bytes.
fn is_short(table: &TypeTable, dtype: TypeNo, count: u64, spans: &Spans) -> Result<bool, NoMemory>
    requires { IsSome (tree_at table.now.slots dtype.number) }
    ensures { IfOk result (λ short. (t : TypeTree) (address : ℤ) → tree_at table.now.slots dtype.number ≡ Some t → AreBytes spans.now (message_map address count t) → short ≡ overlap (message_map address count t)) }
{
    let size = table.bounds(dtype).size.unsigned_abs();
    let Some(bytes) = u128::from(count).checked_mul(size) else {
        return Err(NoMemory);
    };
    Ok(spans.bytes() < bytes)
}

/// Lays a block out.
fn lay_block(
    alloc: Global,
    table: &TypeTable,
    dtype: TypeNo,
    block: Block,
) -> Result<Laid, NoMemory>
    ensures { IfOk result (λ laid. (t : TypeTree) → tree_at table.now.slots dtype.number ≡ Some t → IsLaid laid t (block_seen block ∷ [])) }
{
    if !table.is_live(dtype)
        || MOST_COUNT < block.count
        || FARTHEST < block.address.unsigned_abs()
    {
        return Err(NoMemory);
    }
    let spans = Spans::of(alloc, table, dtype, block.count, block.address)?;
    let overlaps = is_short(table, dtype, block.count, &spans)?;
    Ok(Laid { spans, overlaps })
}

fn either(first: bool, second: bool) -> bool
    ensures { result ≡ (first || second) }
{
    first || second
}

/// Both, joined.
fn joined(alloc: Global, first: Laid, second: &Laid) -> Result<Laid, NoMemory>
    ensures { IfOk result (λ laid. (t : TypeTree) (bs cs : List parts.Block) → IsLaid first t bs → IsLaid second.now t cs → IsLaid laid t (bs ++ cs)) }
{
    let mut spans = first.spans;
    spans.join(alloc, &second.spans)?;
    Ok(Laid {
        spans,
        overlaps: either(first.overlaps, second.overlaps),
    })
}

/// Lays some blocks out, by halves.
pub(crate) fn lay_blocks(
    alloc: Global,
    table: &TypeTable,
    dtype: TypeNo,
    blocks: &[Block],
) -> Result<Laid, NoMemory>
    ensures { IfOk result (λ laid. (t : TypeTree) → tree_at table.now.slots dtype.number ≡ Some t → IsLaid laid t (map block_seen blocks.now)) }
{
    if blocks.is_empty() {
        return Ok(Laid {
            spans: Spans::empty(alloc),
            overlaps: false,
        });
    }
    if blocks.len() == 1 {
        return lay_block(alloc, table, dtype, blocks[0]);
    }
    let (front, back) = blocks.split_at(blocks.len() / 2);
    let first = lay_blocks(alloc, table, dtype, front)?;
    let second = lay_blocks(alloc, table, dtype, back)?;
    let laid = joined(alloc, first, &second)?;
    Ok(laid)
}
