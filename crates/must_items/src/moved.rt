//! How much a side of a collective call moves.

ghost use Rattle.std.specs.Prelude.{◌≡◌, ◌∷◌, [], ℤ, List, map, Some, None, if◌then◌else◌};
ghost use Rattle.std.specs.Option.{option_map};
ghost use Rattle.must_call.specs.declared.field.Field.TheVariants as field;
ghost use Rattle.must_call.specs.declared.field.Handle.TheVariants as handle;
ghost use Rattle.must_call.specs.declared.field.Item.TheVariants as item;
ghost use Rattle.must_call.specs.Arguments.{seen, all_seen};
ghost use Rattle.must_rules.specs.Significant.{or_else, first_told};
ghost use Rattle.must_rules.specs.ArgumentRules.{amount_count};
ghost use Rattle.must_args.specs.Settings.{has_sense};
ghost use Rattle.must_items.specs.Moved.{tells, counts_in, type_in, where_significant};
ghost use Rattle.must_items.specs.Seen.{counts_seen};

use must_args::Setting;
use must_call::{AmountList, Argument, Handle, Int, IntList, Ints, Side};

/// How many elements go to or come from the members.
#[derive(Clone, Copy, Drop)]
pub enum Moved<'a> {
    /// The same for each member.
    Alike(i32),
    /// One for each member.
    ByMember(&'a AmountList),
    /// One for each member.
    Counts(&'a IntList),
}

/// Whether a field of side `of` tells what goes on at a side; one of both sides tells what is sent.
fn tells(of: Side, side: Side) -> bool
    ensures { result ≡ tells of side }
{
    match (of, side) {
        (Side::Send | Side::Both, Side::Send) | (Side::Receive, Side::Receive) => true,
        _ => false,
    }
}

/// The first of two that is there.
pub fn first_of<T: Copy>(first: Option<T>, second: Option<T>) -> Option<T>
    ensures { result ≡ or_else first second }
{
    match first {
        Some(x) => Some(x),
        None => second,
    }
}

fn alike(role: Int, side: Side, count: &i32) -> Option<Moved<'static>>
    ensures { option_map counts_seen result ≡ counts_in side (field.I32 role) count.now }
{
    match role {
        Int::Count(of) if tells(of, side) => Some(Moved::Alike(*count)),
        _ => None,
    }
}

fn by_member(of: Side, side: Side, amounts: &AmountList) -> Option<Moved<'_>>
    ensures { option_map counts_seen result ≡ counts_in side (field.Items (item.Amount of)) amounts.now }
{
    if tells(of, side) {
        Some(Moved::ByMember(amounts))
    } else {
        None
    }
}

fn counted(role: Ints, side: Side, counts: &IntList) -> Option<Moved<'_>>
    ensures { option_map counts_seen result ≡ counts_in side (field.Items (item.Int role)) counts.now }
{
    match (role, side) {
        (Ints::Counts, Side::Send) => Some(Moved::Counts(counts)),
        _ => None,
    }
}

fn moved_told<'a>(side: Side, argument: &Argument<'a>) -> Option<Moved<'a>>
    ensures { option_map counts_seen result ≡ counts_in side (seen argument.now).0 (seen argument.now).1 }
{
    match argument {
        Argument::I32(role, count) => alike(*role, side, count),
        Argument::Amounts(of, amounts) => by_member(*of, side, amounts),
        Argument::Ints(role, counts) => counted(*role, side, counts),
        _ => None,
    }
}

fn type_with(role: Handle, side: Side, number: u32) -> Option<u32>
    ensures { result ≡ type_in side (field.Handle role) number }
{
    match role {
        Handle::Datatype(of) if tells(of, side) => Some(number),
        _ => None,
    }
}

fn type_told(side: Side, argument: &Argument<'_>) -> Option<u32>
    ensures { result ≡ type_in side (seen argument.now).0 (seen argument.now).1 }
{
    match argument {
        Argument::Handle(role, number) => type_with(*role, side, *number),
        _ => None,
    }
}

/// What a field says of a side, where it is significant.
fn moved_here<'a>(setting: &Setting, side: Side, argument: &Argument<'a>) -> Option<Moved<'a>>
    ensures { option_map counts_seen result ≡ where_significant (has_sense setting.now) (counts_in side) (seen argument.now).0 (seen argument.now).1 }
{
    if setting.has_sense(argument) {
        moved_told(side, argument)
    } else {
        None
    }
}

fn type_here(setting: &Setting, side: Side, argument: &Argument<'_>) -> Option<u32>
    ensures { result ≡ where_significant (has_sense setting.now) (type_in side) (seen argument.now).0 (seen argument.now).1 }
{
    if setting.has_sense(argument) {
        type_told(side, argument)
    } else {
        None
    }
}

/// What the significant fields of a call say of a side.
#[derive(Clone, Copy, Drop)]
pub struct SideMoved<'a> {
    pub moved: Option<Moved<'a>>,
    pub dtype: Option<u32>,
}

/// What a side of a call moves.
pub fn side_moved<'a>(setting: &Setting, arguments: &[Argument<'a>], side: Side) -> SideMoved<'a>
    ensures moved { option_map counts_seen result.moved ≡ first_told (where_significant (has_sense setting.now) (counts_in side)) (all_seen arguments.now) }
    ensures dtype { result.dtype ≡ first_told (where_significant (has_sense setting.now) (type_in side)) (all_seen arguments.now) }
{
    let mut moved = None;
    let mut dtype = None;
    for argument in arguments {
        moved = first_of(moved, moved_here(setting, side, argument));
        dtype = first_of(dtype, type_here(setting, side, argument));
    }
    SideMoved { moved, dtype }
}
