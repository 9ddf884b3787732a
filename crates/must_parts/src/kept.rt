//! The parts of persistent requests, which are kept for the calls that start them.

ghost use Rattle.std.specs.Prelude.{◌≡◌, ◌++◌, ◌∷◌, [], ℕ, true, false, List, OnOk};
ghost use Rattle.std.specs.Option.{option_map, option_to_list};
ghost use Rattle.std.specs.Ordering.{nat_cmp};
ghost use Rattle.std.specs.BTreeMap.{get};
ghost use Rattle.must_call.specs.declared.class.Class.TheVariants.{Request};
ghost use Rattle.must_call.specs.declared.call.Call.{Call};
ghost use Rattle.must_rules.specs.Rank.{Rank};
ghost use Rattle.must_rules.specs.Making.{is_persistent_kind, made_by};
ghost use Rattle.must_rules.specs.Known.{facts_of};
ghost use Rattle.must_rules.specs.Parts.{Part, numbered};
ghost use Rattle.must_rules.specs.PendingOperations.{parts_behind};
ghost use Rattle.must_parts.specs.Placing.{IsPlacedOf, ArePlaced};
ghost use Rattle.must_parts.specs.Ending.{freed_in};
ghost use Rattle.must_parts.specs.Keeping.{AreKept, unless_lived, fresh_request, with_part};

use crate::placed::Placed;
use must_args::View;
use must_base::NoMemory;
use must_call::{Body, Call, Class, Finish, Life};
use must_handle::made;
use std::alloc::Global;
use std::collections::BTreeMap;

/// The parts of a rank's persistent requests, as long as these live (MPI 3.1 section 3.9). A request whose buffer wasn't usable in
/// the call that made it has none.
#[derive(Drop)]
pub struct Kept {
    parts: BTreeMap<u32, Placed>,
}

/// The part with this number, out of some.
fn take_numbered(parts: Vec<Placed>, number: u32) -> Option<Placed>
    ensures { (ps : List Part) → ArePlaced parts.items ps → IsPlacedOf result (numbered number ps) }
{
    let mut parts = parts;
    let Some(last) = parts.pop() else {
        return None;
    };
    if let Some(first) = take_numbered(parts, number) {
        return Some(first);
    }
    if last.number == number {
        Some(last)
    } else {
        None
    }
}

/// The request, where its number had no life yet.
fn unless_lived(life: Life, request: u32) -> Option<u32>
    ensures { result ≡ unless_lived life request }
{
    match life {
        Life::Never => Some(request),
        _ => None,
    }
}

/// The request that a call makes, where its number had no life yet.
fn fresh_request<V: View>(view: &V, call: &Call) -> Option<u32>
    ensures { result ≡ fresh_request ((V.facts view.now).life Request) (made_by call.now) }
{
    match made(call) {
        Some((Class::Request, request)) => {
            unless_lived(view.life(Class::Request, request), request)
        }
        _ => None,
    }
}

/// The request that a call frees.
fn freed_request(call: &Call) -> Option<u32>
    ensures { option_to_list result ≡ freed_in call.now }
{
    if call.returned {
        if let Body::Finish(Finish::RequestFree { request }) = &call.body {
            return Some(*request);
        }
    }
    None
}

impl Kept {
    /// No parts. Takes no memory.
    pub fn new(alloc: Global) -> Kept
        ensures { (r : Rank) → AreKept result r [] }
    {
        Kept {
            parts: BTreeMap::new(alloc),
        }
    }

    /// The part of a persistent request. Takes time for the logarithm of their number.
    pub fn part(&self, request: u32) -> Option<&Placed>
        ensures { option_map (λ p. p.now) result ≡ get nat_cmp self.now.parts request }
    {
        self.parts.get(&request)
    }

    /// Puts in a part for a request, where there are both.
    fn put(&mut self, request: Option<u32>, part: Option<Placed>) -> Result<(), NoMemory>
        ensures { OnOk result ((n : ℕ) → get nat_cmp self.new.parts n ≡ with_part (get nat_cmp self.old.parts) request part n) }
    {
        let Some(request) = request else {
            return Ok(());
        };
        let Some(part) = part else {
            return Ok(());
        };
        self.parts.insert(request, part)?;
        Ok(())
    }

    /// Keeps the part of the persistent request that a call makes, of the call's parts.
    pub fn keep<V: View>(
        &mut self,
        view: &V,
        call: &Call,
        parts: Vec<Placed>,
    ) -> Result<(), NoMemory>
        requires { is_persistent_kind call.now.body ≡ true }
        ensures { OnOk result ((r : Rank) (calls : List Call) → V.facts view.now ≡ facts_of r calls → AreKept self.old r calls → ArePlaced parts.items (parts_behind r calls call.now) → AreKept self.new r (calls ++ call.now ∷ [])) }
    {
        let request = fresh_request(view, call);
        let part = take_numbered(parts, 0);
        self.put(request, part)?;
        Ok(())
    }

    /// Lets the part of a request go that a call frees, which makes no persistent request.
    pub fn release(&mut self, call: &Call)
        requires { is_persistent_kind call.now.body ≡ false }
        ensures { (r : Rank) (calls : List Call) → AreKept self.old r calls → AreKept self.new r (calls ++ call.now ∷ []) }
    {
        let Some(request) = freed_request(call) else {
            return;
        };
        self.parts.remove(&request);
    }
}
