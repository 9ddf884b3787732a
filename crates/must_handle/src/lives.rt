//! The lives of a rank's handles.

ghost use Rattle.std.specs.Prelude.{◌≡◌, true, ◌≤◌, ℕ, ◌+◌, ◌^◌, Some, List, [], ◌∷◌, ◌++◌, Option, MatchOption, IfOk, OnOk, OnErr, length, slice_get};
ghost use Rattle.must_call.specs.declared.call.Call.{Call};
ghost use Rattle.must_rules.specs.Making.{made_by};
ghost use Rattle.must_rules.specs.Lives.{is_predefined, life, is_persistent, committed, made_count, open_handles};
ghost use Rattle.must_rules.specs.Starts.{Clearness, TellsClear, start_of};
ghost use Rattle.must_rules.specs.LiveLaws.{live_now};
ghost use Rattle.must_call.specs.declared.life.Life.TheVariants.{Live};
ghost use Rattle.must_handle.specs.Slots.{Stands, slot_of, life_in, state_in, kept_slot, kept_in, start_slot, start_in, committed_in};
ghost use Rattle.must_handle.specs.Changes.{Changes, IsNext, next_by, passed_slot, fresh};

use crate::ending::{complete, free, start};
use crate::making::{commit, copied, made, makes_persistent};
use crate::slot::{Slot, is_same, unless_persistent};
use must_base::NoMemory;
use must_call::{Call, Class, FIRST_MADE, Life};
use std::alloc::Global;
use std::marker::Model;

/// The handles that the calls of a rank made, in order of number, as the calls taken so far left them.
#[derive(Drop)]
pub struct Lives {
    slots: Vec<Slot>,
}

impl Model for Lives {
    ghost use Rattle.std.specs.Prelude.{List, ◌≤◌, ◌+◌, ◌^◌, length};
    ghost use Rattle.must_handle.specs.declared.slot.Slot.{Slot};

    ghost Value = { List Slot };

    ghost view = { λ l. l.slots.items };

    ghost invariant = { λ l. length l.slots.items + 64 ≤ 2 ^ 32 };
}

/// Whether MPI names this handle.
#[tactic(auto, unfolding(must_rules::specs::Lives::is_predefined))]
fn is_named(class: Class, number: u32) -> bool
    ensures { result ≡ is_predefined class number }
{
    let last = match class {
        Class::Comm => 2,
        Class::Group => 1,
        Class::Datatype => 30,
        Class::Operation => 12,
        Class::Request => 0,
    };
    1 <= number && number <= last
}

/// The slot of a made handle.
fn slot_at(slots: &[Slot], number: u32) -> Option<Slot>
    ensures { result ≡ slot_of slots.now number }
{
    if number < FIRST_MADE {
        return None;
    }
    let i = (number - FIRST_MADE) as usize;
    if i < slots.len() {
        Some(slots[i])
    } else {
        None
    }
}

fn slot_life(class: Class, slot: Option<Slot>) -> Life
    ensures { result ≡ life_in class slot }
{
    match slot {
        None => Life::Never,
        Some(slot) => {
            if is_same(slot.class, class) {
                match slot.freed {
                    None => Life::Live { made: slot.made },
                    Some(freed) => Life::Freed {
                        made: slot.made,
                        freed,
                    },
                }
            } else {
                Life::Never
            }
        }
    }
}

fn handle_life(slots: &[Slot], class: Class, number: u32) -> Life
    ensures { result ≡ state_in slots.now class number }
{
    if is_named(class, number) {
        Life::Predefined
    } else {
        slot_life(class, slot_at(slots, number))
    }
}

fn keeps(slots: &[Slot], class: Class, number: u32) -> bool
    ensures { result ≡ kept_in slots.now class number }
{
    if is_named(class, number) {
        return false;
    }
    match slot_at(slots, number) {
        None => false,
        Some(slot) => is_same(slot.class, class) && slot.freed.is_none() && slot.persistent,
    }
}

fn request_start(slots: &[Slot], number: u32) -> Option<u32>
    ensures { result ≡ start_in slots.now number }
{
    match slot_at(slots, number) {
        None => None,
        Some(slot) => {
            if is_same(slot.class, Class::Request) && slot.freed.is_none() {
                slot.start
            } else {
                None
            }
        }
    }
}

fn has_committed(slots: &[Slot], number: u32) -> bool
    ensures { result ≡ committed_in slots.now number }
{
    if is_named(Class::Datatype, number) {
        return true;
    }
    match slot_at(slots, number) {
        None => false,
        Some(slot) => slot.committed,
    }
}

/// What is kept of the handle that call `k` makes.
fn fresh_slot(slots: &[Slot], k: u32, call: &Call, class: Class) -> Slot
    ensures { made_by call.now ≡ Some (class, 64 + length slots.now) → result ≡ fresh slots.now k call.now class }
{
    let persistent = makes_persistent(call);
    let start = unless_persistent(persistent, k);
    let committed = match copied(class, &call.body) {
        None => false,
        Some(old) => has_committed(slots, old),
    };
    Slot {
        class,
        made: k,
        freed: None,
        committed,
        persistent,
        start,
    }
}

/// Call `k`, which makes no handle, commits, starts, frees or completes others.
fn pass(slots: &mut [Slot], k: u32, call: &Call, clear: bool)
    ensures { Changes (passed_slot clear call.now k) slots.old slots.new }
{
    commit(slots, call);
    start(slots, call, clear, k);
    free(slots, call, k);
    complete(slots, call, k);
}

/// Whether a handle, where there is one, has this number.
fn has_number(handle: Option<(Class, u32)>, number: usize) -> bool
    ensures { result ≡ next_by handle number }
{
    match handle {
        None => true,
        Some((_class, own)) => own as usize == number,
    }
}

/// The call that made a live handle.
fn live_since(life: Life) -> Option<u32>
    ensures { MatchOption result (live_now life ≡ 0) (λ made. life ≡ Live made) }
{
    match life {
        Life::Live { made } => Some(made),
        _ => None,
    }
}

/// How many are left to pass over behind this handle.
fn left_behind(left: u32, life: Life) -> u32
    requires { live_now life ≤ left }
    ensures { result + live_now life ≡ left }
{
    match life {
        Life::Live { .. } => left - 1,
        _ => left,
    }
}

/// The number and the making call of the `i`-th handle of a class that is live.
fn find_open(slots: &[Slot], class: Class, i: u32) -> Option<(u32, u32)>
    requires { length slots.now + 64 ≤ 2 ^ 32 }
    ensures { (is_clear : Clearness) (calls : List Call) → Stands is_clear slots.now calls → result ≡ slice_get (open_handles calls class) i }
{
    let mut left = i;
    for at in 0..slots.len() {
        let number = FIRST_MADE + at as u32;
        let life = handle_life(slots, class, number);
        if left == 0
            && let Some(made) = live_since(life)
        {
            return Some((number, made));
        }
        left = left_behind(left, life);
    }
    None
}

impl Lives {
    /// No calls yet.
    pub fn new(alloc: Global) -> Result<Lives, NoMemory>
        ensures { IfOk result (λ lives. (is_clear : Clearness) → Stands is_clear lives []) }
    {
        Ok(Lives {
            slots: Vec::new(alloc),
        })
    }

    /// Whether the handle that a call makes, if any, has the next number: the condition of `apply`.
    pub fn is_next(&self, call: &Call) -> bool
        ensures exact { result ≡ next_by (made_by call.now) (64 + length self.now) }
        ensures next { result ≡ true → IsNext self.now call.now }
    {
        has_number(made(call), FIRST_MADE as usize + self.slots.len())
    }

    /// Takes call `k`, the next, and whether it is clear: that matters where it starts requests alone. The handle that it
    /// makes, if any, has the next number. After `NoMemory` nothing has changed.
    pub fn apply(&mut self, k: u32, call: &Call, clear: bool) -> Result<(), NoMemory>
        requires { IsNext self.old call.now }
        ensures stands { OnOk result ((is_clear : Clearness) (calls : List Call) → length calls ≡ k → TellsClear is_clear calls call.now clear → Stands is_clear self.old calls → Stands is_clear self.new (calls ++ call.now ∷ [])) }
        ensures err { OnErr result (self.new ≡ self.old) }
    {
        match made(call) {
            Some((class, _number)) => {
                let slot = fresh_slot(&self.slots, k, call, class);
                self.slots.push(slot)?;
                Ok(())
            }
            None => {
                pass(&mut self.slots, k, call, clear);
                Ok(())
            }
        }
    }

    /// The life of a handle after the calls taken so far. A number of another class is `Never`.
    pub fn state(&self, class: Class, number: u32) -> Life
        ensures table { result ≡ state_in self.now class number }
        ensures stands { (is_clear : Clearness) (calls : List Call) → Stands is_clear self.now calls → result ≡ life calls class number }
    {
        handle_life(&self.slots, class, number)
    }

    /// Whether a number is that of a live persistent request.
    pub fn is_persistent(&self, number: u32) -> bool
        ensures { (is_clear : Clearness) (calls : List Call) → Stands is_clear self.now calls → result ≡ is_persistent calls number }
    {
        keeps(&self.slots, Class::Request, number)
    }

    /// The call that started an active request; none exactly where the number isn't that of an active request. A live
    /// request that isn't persistent was started by its making call.
    pub fn start_of(&self, number: u32) -> Option<u32>
        ensures table { result ≡ start_in self.now number }
        ensures stands { (is_clear : Clearness) (calls : List Call) → Stands is_clear self.now calls → result ≡ start_of is_clear calls number }
    {
        request_start(&self.slots, number)
    }

    /// Whether a type is committed.
    pub fn committed(&self, number: u32) -> bool
        ensures table { result ≡ committed_in self.now number }
        ensures stands { (is_clear : Clearness) (calls : List Call) → Stands is_clear self.now calls → result ≡ committed calls number }
    {
        has_committed(&self.slots, number)
    }

    /// How many handles were made; they have the numbers from 64 on.
    pub fn made(&self) -> usize
        ensures count { (is_clear : Clearness) (calls : List Call) → Stands is_clear self.now calls → result ≡ made_count calls }
        ensures slots { result ≡ length self.now }
        ensures few { result + 64 ≤ 2 ^ 32 }
    {
        self.slots.len()
    }

    /// The number and the making call of the `i`-th handle of a class that is live, in order of number; none exactly
    /// where there are at most `i`. It passes over all made handles.
    pub fn open_at_end(&self, class: Class, i: u32) -> Option<(u32, u32)>
        ensures { (is_clear : Clearness) (calls : List Call) → Stands is_clear self.now calls → result ≡ slice_get (open_handles calls class) i }
    {
        find_open(&self.slots, class, i)
    }
}
