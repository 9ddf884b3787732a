//! The handle that a call makes, and the type that it commits or copies.

ghost use Rattle.std.specs.Prelude.{◌≡◌, if◌then◌else◌, None};
ghost use Rattle.must_call.specs.declared.class.Class.TheVariants.{Datatype};
ghost use Rattle.must_rules.specs.Making.{same_class, numbered, made_by, persists, copied_of};
ghost use Rattle.must_handle.specs.Changes.{Changes, commit_one, commit_slot};

use crate::slot::{Slot, is_same};
use must_call::{Body, Call, Class, Derive, FIRST_MADE};

/// The handle with this number, unless the number says that none was made.
fn numbered_handle(answered: Option<(Class, u32)>) -> Option<(Class, u32)>
    ensures { result ≡ numbered answered }
{
    match answered {
        None => None,
        Some((class, number)) => {
            if number < FIRST_MADE {
                None
            } else {
                Some((class, number))
            }
        }
    }
}

/// The handle that a call makes.
#[tactic(auto, unfolding(must_rules::specs::Making::made_by))]
pub fn made(call: &Call) -> Option<(Class, u32)>
    ensures { result ≡ made_by call.now }
{
    if call.returned {
        numbered_handle(call.made())
    } else {
        None
    }
}

/// Whether what a call makes is a persistent request.
#[tactic(auto, unfolding(must_rules::specs::Making::persists))]
pub fn makes_persistent(call: &Call) -> bool
    ensures { result ≡ persists call.now }
{
    matches!(&call.body, Body::Persist(_))
}

/// Commits the type with this number, where it is live.
fn commit_type(slots: &mut [Slot], number: u32)
    ensures { Changes (commit_one number) slots.old slots.new }
{
    if number < FIRST_MADE {
        return;
    }
    let i = (number - FIRST_MADE) as usize;
    if i < slots.len() {
        let slot = slots[i];
        if is_same(slot.class, Class::Datatype) && slot.freed.is_none() {
            slots[i] = Slot {
                class: slot.class,
                made: slot.made,
                freed: slot.freed,
                committed: true,
                persistent: slot.persistent,
                start: slot.start,
            };
        }
    }
}

/// Commits the type that a call commits.
#[tactic(auto, unfolding(must_rules::specs::Making::commits))]
pub fn commit(slots: &mut [Slot], call: &Call)
    ensures { Changes (commit_slot call.now) slots.old slots.new }
{
    match &call.body {
        Body::Derive(Derive::TypeCommit { dtype }) if call.returned => commit_type(slots, *dtype),
        _ => {}
    }
}

/// The type that a call copies which made a handle of this class.
pub fn copied(class: Class, body: &Body) -> Option<u32>
    ensures { result ≡ (if same_class class Datatype then copied_of body.now else None) }
{
    match body {
        Body::Derive(Derive::TypeDup { old, .. }) if is_same(class, Class::Datatype) => Some(*old),
        _ => None,
    }
}
