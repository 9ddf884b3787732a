//! Rules A1 to A5 and A7: counts, peers, tags, roots, block lengths and colors.

ghost use Rattle.std.specs.Prelude.{◌≡◌, ◌-ℤ◌, map, find, position};
ghost use Rattle.must_call.specs.declared.field.Field.TheVariants as field;
ghost use Rattle.must_call.specs.declared.field.Int.TheVariants as int;
ghost use Rattle.must_call.specs.declared.field.Item.TheVariants as item;
ghost use Rattle.must_find.specs.declared.rule.Rule.TheVariants.{A5};
ghost use Rattle.must_rules.specs.Clear.{is_nil};
ghost use Rattle.must_call.specs.Arguments.{seen};
ghost use Rattle.must_rules.specs.ArgumentRules.{is_negative, for_members, amount_count, is_peer, is_tag, is_wrong_dim, wrong_dim, has_negative_block, has_negative_byte_block, has_negative_struct_block, unless, index_told, wrong_dest, wrong_source, wrong_root, tag_outside, wrong_block};
ghost use Rattle.must_args.specs.Told.{filed, broken_by};

use crate::setting::{Setting, has_position};
use must_call::{
    ANY_SOURCE, ANY_TAG, Amount, Argument, Dim, HindexItem, IndexItem, Int, Ints, PROC_NULL, Side,
    StructBlock, UNDEFINED,
};
use must_find::Rule;

/// A rule, and the value of its finding.
type Broken = Option<(Rule, i128)>;

fn is_peer(members: u32, peer: i32) -> bool
    ensures { result ≡ is_peer members peer }
{
    peer == PROC_NULL || has_position(members, peer)
}

fn is_tag(tag_ub: i32, tag: i32) -> bool
    ensures { result ≡ is_tag tag_ub tag }
{
    0 <= tag && tag <= tag_ub
}

/// Entries past the last member are ignored.
fn amounts_of_members(members: Option<u32>, amounts: &[Amount]) -> &[Amount]
    ensures { result.now ≡ for_members members amounts.now }
{
    match members {
        Some(members) if (members as usize) < amounts.len() => {
            let (front, _) = amounts.split_at(members as usize);
            front
        }
        _ => amounts,
    }
}

fn counts_of_members(members: Option<u32>, counts: &[i32]) -> &[i32]
    ensures { result.now ≡ for_members members counts.now }
{
    match members {
        Some(members) if (members as usize) < counts.len() => {
            let (front, _) = counts.split_at(members as usize);
            front
        }
        _ => counts,
    }
}

fn negative_amount(amounts: &[Amount]) -> Option<i32>
    ensures { result ≡ find is_negative (map amount_count amounts.now) }
{
    amounts
        .iter()
        .map(|amount| amount.count)
        .find(|count| *count < 0)
}

fn negative_count(counts: &[i32]) -> Option<i32>
    ensures { result ≡ find is_negative counts.now }
{
    counts.iter().copied().find(|count| *count < 0)
}

fn negative_block(blocks: &[IndexItem]) -> Option<usize>
    ensures { result ≡ position has_negative_block blocks.now }
{
    blocks.iter().position(|block| block.block < 0)
}

fn negative_byte_block(blocks: &[HindexItem]) -> Option<usize>
    ensures { result ≡ position has_negative_byte_block blocks.now }
{
    blocks.iter().position(|block| block.block < 0)
}

fn negative_struct_block(blocks: &[StructBlock]) -> Option<usize>
    ensures { result ≡ position has_negative_struct_block blocks.now }
{
    blocks.iter().position(|block| block.block < 0)
}

/// How far a part of a dimension may start from its beginning.
fn room_in(size: i32, subsize: i32) -> i64
    ensures { result ≡ size -ℤ subsize }
{
    i64::from(size) - i64::from(subsize)
}

fn is_wrong_dim(dim: &Dim) -> bool
    ensures { result ≡ is_wrong_dim dim.now }
{
    dim.size < 1
        || dim.subsize < 1
        || dim.size < dim.subsize
        || dim.start < 0
        || room_in(dim.size, dim.subsize) < i64::from(dim.start)
}

fn first_wrong_dim(dims: &[Dim]) -> Option<usize>
    ensures { result ≡ position is_wrong_dim dims.now }
{
    dims.iter().position(|dim| is_wrong_dim(dim))
}

fn has_none(dims: &[Dim]) -> bool
    ensures { result ≡ is_nil dims.now }
{
    match dims {
        [] => true,
        [_, ..] => false,
    }
}

fn wrong_dim(dims: &[Dim]) -> Option<usize>
    ensures { result ≡ wrong_dim dims.now }
{
    if has_none(dims) {
        Some(0)
    } else {
        first_wrong_dim(dims)
    }
}

fn filed(rule: Rule, value: Option<i128>) -> Broken
    ensures { result ≡ filed rule value }
{
    match value {
        Some(value) => Some((rule, value)),
        None => None,
    }
}

fn unless(fine: bool, value: i32) -> Option<i128>
    ensures { result ≡ unless fine value }
{
    if fine { None } else { Some(i128::from(value)) }
}

fn index_told(index: Option<usize>) -> Option<i128>
    ensures { result ≡ index_told index }
{
    match index {
        Some(index) => Some(index as i128),
        None => None,
    }
}

fn value_told(value: Option<i32>) -> Option<i128>
    ensures { result ≡ value }
{
    match value {
        Some(value) => Some(i128::from(value)),
        None => None,
    }
}

fn wrong_dest(members: Option<u32>, dest: i32) -> Option<i128>
    ensures { result ≡ wrong_dest members dest }
{
    match members {
        Some(members) => unless(is_peer(members, dest), dest),
        None => None,
    }
}

fn wrong_source(members: Option<u32>, source: i32) -> Option<i128>
    ensures { result ≡ wrong_source members source }
{
    match members {
        Some(members) => unless(source == ANY_SOURCE || is_peer(members, source), source),
        None => None,
    }
}

fn wrong_tag(tag_ub: i32, side: Side, tag: i32) -> Option<i128>
    ensures { result ≡ tag_outside tag_ub (field.I32 (int.Tag side)) tag }
{
    match side {
        Side::Receive => unless(tag == ANY_TAG || is_tag(tag_ub, tag), tag),
        Side::Send | Side::Both => unless(is_tag(tag_ub, tag), tag),
    }
}

fn wrong_root(members: Option<u32>, root: i32) -> Option<i128>
    ensures { result ≡ wrong_root members root }
{
    match members {
        Some(members) => unless(has_position(members, root), root),
        None => None,
    }
}

fn negative_length(block: i32) -> Option<i128>
    ensures { result ≡ wrong_block (field.I32 int.Block) block }
{
    if block < 0 { Some(0) } else { None }
}

/// What an `i32` breaks.
fn judge_int(setting: &Setting, role: Int, value: &i32) -> Broken
    ensures { result ≡ broken_by setting.now.tag_ub setting.now.size (field.I32 role) value.now }
{
    let value = *value;
    match role {
        Int::Count(_) | Int::Copies => filed(Rule::A1, unless(!(value < 0), value)),
        Int::Dest => filed(Rule::A2, wrong_dest(setting.size, value)),
        Int::Source => filed(Rule::A2, wrong_source(setting.size, value)),
        Int::Tag(side) => filed(Rule::A3, wrong_tag(setting.tag_ub, side, value)),
        Int::Root => filed(Rule::A4, wrong_root(setting.size, value)),
        Int::Block => filed(Rule::A5, negative_length(value)),
        Int::Color => filed(Rule::A7, unless(UNDEFINED <= value, value)),
        Int::Stride | Int::Key => None,
    }
}

fn judge_amounts(setting: &Setting, side: Side, amounts: &[Amount]) -> Broken
    ensures { result ≡ broken_by setting.now.tag_ub setting.now.size (field.Items (item.Amount side)) amounts.now }
{
    let amounts = amounts_of_members(setting.size, amounts);
    filed(Rule::A1, value_told(negative_amount(amounts)))
}

fn judge_ints(setting: &Setting, role: Ints, list: &[i32]) -> Broken
    ensures { result ≡ broken_by setting.now.tag_ub setting.now.size (field.Items (item.Int role)) list.now }
{
    match role {
        Ints::Counts => {
            let counts = counts_of_members(setting.size, list);
            filed(Rule::A1, value_told(negative_count(counts)))
        }
        Ints::Ranks | Ints::Displacements => None,
    }
}

/// The rule of A1 to A5 and A7 that a significant field breaks, with the value of the finding.
pub(crate) fn judge_value(setting: &Setting, argument: &Argument<'_>) -> Broken
    ensures { result ≡ broken_by setting.now.tag_ub setting.now.size (seen argument.now).0 (seen argument.now).1 }
{
    match argument {
        Argument::I32(role, value) => judge_int(setting, *role, value),
        Argument::Amounts(side, list) => judge_amounts(setting, *side, list.items()),
        Argument::Ints(role, list) => judge_ints(setting, *role, list.items()),
        Argument::Blocks(list) => judge_blocks(list.items()),
        Argument::ByteBlocks(list) => judge_byte_blocks(list.items()),
        Argument::StructBlocks(list) => judge_struct_blocks(list.items()),
        Argument::Dims(list) => judge_dims(list.items()),
        Argument::Handle(..)
        | Argument::Buffer(..)
        | Argument::I64(..)
        | Argument::Bit(..)
        | Argument::Order(_)
        | Argument::Requests(_)
        | Argument::Aints(_) => None,
    }
}

fn judge_blocks(blocks: &[IndexItem]) -> Broken
    ensures { result ≡ filed A5 (wrong_block (field.Items item.Block) blocks.now) }
{
    filed(Rule::A5, index_told(negative_block(blocks)))
}

fn judge_byte_blocks(blocks: &[HindexItem]) -> Broken
    ensures { result ≡ filed A5 (wrong_block (field.Items item.ByteBlock) blocks.now) }
{
    filed(Rule::A5, index_told(negative_byte_block(blocks)))
}

fn judge_struct_blocks(blocks: &[StructBlock]) -> Broken
    ensures { result ≡ filed A5 (wrong_block (field.Items item.StructBlock) blocks.now) }
{
    filed(Rule::A5, index_told(negative_struct_block(blocks)))
}

fn judge_dims(dims: &[Dim]) -> Broken
    ensures { result ≡ filed A5 (wrong_block (field.Items item.Dim) dims.now) }
{
    filed(Rule::A5, index_told(wrong_dim(dims)))
}
