//! Persistent requests, and the calls that start them.

ghost use Rattle.std.specs.Prelude.{◌≡◌, ◌++◌, ◌∷◌, [], ℕ, List, Option, Some, None, length, take, true, false, not, ◌&&◌, IfOk, OnOk};
ghost use Rattle.std.specs.Option.{option_map, option_to_list};
ghost use Rattle.std.specs.Ordering.{nat_cmp};
ghost use Rattle.std.specs.BTreeMap.{get};
ghost use Rattle.must_call.specs.declared.class.Class.TheVariants.{Request};
ghost use Rattle.must_call.specs.declared.body.Body.TheVariants as body;
ghost use Rattle.must_call.specs.declared.call.Call.{Call};
ghost use Rattle.must_rules.specs.Rank.{Rank};
ghost use Rattle.must_rules.specs.Clear.{is_clear};
ghost use Rattle.must_rules.specs.Making.{is_in, is_persistent_kind, made_by, started_of};
ghost use Rattle.must_rules.specs.Starts.{start_of};
ghost use Rattle.must_rules.specs.Known.{facts_of, clear_behind};
ghost use Rattle.must_rules.specs.UsableParts.{usable_parts};
ghost use Rattle.must_rules.specs.Types.{sound_type};
ghost use Rattle.must_derived.specs.Standing.{Stands};
ghost use Rattle.must_parts.specs.Ending.{freed_in};
ghost use Rattle.must_parts.specs.Keeping.{unless_lived, fresh_request};
ghost use Rattle.must_parts.specs.Starting.{starts_now};
ghost use Rattle.must_parts.specs.Telling.{Sees};
ghost use Rattle.must_messages.specs.Asking.{AreBegun};
ghost use Rattle.must_rules.specs.Operations.{operation, message_by, message_started, started_from, operations_at};
ghost use Rattle.must_begin.specs.Telling.{IsOn, IsAskedOf, IsBegunOf};
ghost use Rattle.must_begin.specs.Keeping.{Keeps, with_asked};

use crate::begun::{begun_here, is_persistent_kind, push_begun};
use crate::named::Named;
use crate::sides::{sent, taken};
use must_args::{Usable, View, was_seen};
use must_base::NoMemory;
use must_call::{Body, Call, Class, Finish, Life, Persist, Place};
use must_derived::Datatypes;
use must_handle::made;
use must_messages::{Asked, Begun};
use std::alloc::Global;
use std::collections::{BTreeMap, BTreeSet};

/// What the persistent requests of a rank ask for, as long as these live (MPI 3.1 section 3.9). A request whose buffer wasn't usable
/// in the call that made it asks for nothing.
#[derive(Drop)]
pub struct Requests {
    asked: BTreeMap<u32, Asked>,
}

/// The same once more. It takes no memory.
fn copy(asked: &Asked) -> Result<Asked, NoMemory>
    ensures { IfOk result (λ copied. copied ≡ asked.now) }
{
    Ok(Asked {
        deed: asked.deed,
        comm: asked.comm,
        name: asked.name.copy()?,
        peer: asked.peer,
        tag: asked.tag,
        sig: asked.sig.copy()?,
    })
}

/// Whether a call starts a request, if it's a live persistent one; `again` says that the request stands in the list before.
fn starts_now<V: View>(view: &V, clear: bool, again: bool, request: u32) -> bool
    ensures { result ≡ starts_now clear (V.starts view.now) again request }
{
    clear && (view.start_of(request).is_none() && !again)
}

/// The request, where its number had no life yet.
fn unless_lived(life: Life, request: u32) -> Option<u32>
    ensures { result ≡ unless_lived life request }
{
    match life {
        Life::Never => Some(request),
        _ => None,
    }
}

/// The request that a call makes, where its number had no life yet.
fn fresh_request<V: View>(view: &V, call: &Call) -> Option<u32>
    ensures { result ≡ fresh_request ((V.facts view.now).life Request) (made_by call.now) }
{
    match made(call) {
        Some((Class::Request, request)) => {
            unless_lived(view.life(Class::Request, request), request)
        }
        _ => None,
    }
}

/// The request that a call frees.
fn freed_request(call: &Call) -> Option<u32>
    ensures { option_to_list result ≡ freed_in call.now }
{
    if call.returned {
        if let Body::Finish(Finish::RequestFree { request }) = &call.body {
            return Some(*request);
        }
    }
    None
}

/// What the call that makes a persistent request asks for.
fn asked_once(
    alloc: Global,
    types: &Datatypes,
    on: Option<Named<'_>>,
    call: &Call,
    parts: u8,
) -> Result<Option<Asked>, NoMemory>
    ensures { IfOk result (λ asked. (r : Rank) (calls : List Call) → parts ≡ usable_parts (facts_of r calls) (sound_type (clear_behind r) calls) call.now.body → Stands (clear_behind r) types.now calls → IsOn r calls call.now.body on.entry → IsAskedOf asked (message_by r calls (Some call.now))) }
{
    if let Some(asked) = sent(alloc, types, on, call, parts)? {
        return Ok(Some(asked));
    }
    let asked = taken(alloc, types, on, call, parts)?;
    Ok(asked)
}

impl Requests {
    /// Those before the first call. Takes no memory.
    pub fn new(alloc: Global) -> Requests
        ensures { (r : Rank) → Keeps r [] result }
    {
        Requests {
            asked: BTreeMap::new(alloc),
        }
    }

    /// The operation that a call starts for the request at an index of its list; `again` says that the request stands in the list
    /// before.
    fn started<V: View>(
        &self,
        view: &V,
        clear: bool,
        again: bool,
        index: u32,
        request: u32,
    ) -> Result<Option<Begun>, NoMemory>
        ensures { IfOk result (λ begun. (r : Rank) (calls : List Call) (call : Call) → V.starts view.now ≡ start_of (clear_behind r) calls → clear ≡ clear_behind r calls call → again ≡ is_in (take index (started_of call.body)) request → Keeps r calls self.now → IsBegunOf (length calls) begun (option_map (operation (length calls) index (Some request)) (message_started r calls call index request))) }
    {
        if !starts_now(view, clear, again, request) {
            return Ok(None);
        }
        let Some(asked) = self.asked.get(&request) else {
            return Ok(None);
        };
        let asked = copy(asked)?;
        Ok(Some(Begun {
            part: index,
            request: Some(request),
            asked,
        }))
    }

    /// The operation that a call starts for its only request.
    fn start<V: View>(
        &self,
        alloc: Global,
        view: &V,
        clear: bool,
        request: u32,
    ) -> Result<Vec<Begun>, NoMemory>
        ensures { IfOk result (λ begun. (r : Rank) (calls : List Call) (call : Call) → V.starts view.now ≡ start_of (clear_behind r) calls → clear ≡ clear_behind r calls call → started_of call.body ≡ request ∷ [] → Keeps r calls self.now → AreBegun (length calls) begun.items (started_from r calls call 0 (request ∷ []))) }
    {
        let mut begun = Vec::new(alloc);
        let started = self.started(view, clear, false, 0, request)?;
        push_begun(&mut begun, started)?;
        Ok(begun)
    }

    /// The operations that a call starts for the requests of its list.
    fn start_all<V: View>(
        &self,
        alloc: Global,
        view: &V,
        clear: bool,
        requests: &[u32],
    ) -> Result<Vec<Begun>, NoMemory>
        ensures { IfOk result (λ begun. (r : Rank) (calls : List Call) (call : Call) → V.starts view.now ≡ start_of (clear_behind r) calls → clear ≡ clear_behind r calls call → started_of call.body ≡ requests.now → Keeps r calls self.now → AreBegun (length calls) begun.items (started_from r calls call 0 requests.now)) }
    {
        let mut seen = BTreeSet::new(alloc);
        let mut begun = Vec::new(alloc);
        for (i, request) in requests.iter().enumerate() {
            let Ok(index) = u32::try_from(i) else {
                return Err(NoMemory);
            };
            let again = was_seen(&mut seen, *request)?;
            let started = self.started(view, clear, again, index, *request)?;
            push_begun(&mut begun, started)?;
        }
        Ok(begun)
    }

    /// The operations that a call starts, where it starts some; `clear` says whether it is.
    fn starts<V: View>(
        &self,
        alloc: Global,
        view: &V,
        clear: bool,
        persist: &Persist,
    ) -> Result<Vec<Begun>, NoMemory>
        ensures { IfOk result (λ begun. (r : Rank) (calls : List Call) (call : Call) → call.body ≡ body.Persist persist.now → V.starts view.now ≡ start_of (clear_behind r) calls → clear ≡ clear_behind r calls call → Keeps r calls self.now → AreBegun (length calls) begun.items (operations_at r calls call)) }
    {
        match persist {
            Persist::Start { request } => self.start(alloc, view, clear, *request),
            Persist::Startall { requests } => {
                self.start_all(alloc, view, clear, requests.items())
            }
            _ => Ok(Vec::new(alloc)),
        }
    }

    /// The operations that a call begins, in the order of their parts. `on` is the communicator that the call names, and `usable`
    /// is what `check_args` answers at it. Want of memory is answered too where a type is lacking, which none of a clear call is.
    pub fn begins<V: View>(
        &self,
        alloc: Global,
        view: &V,
        types: &Datatypes,
        on: Option<Named<'_>>,
        at: Place,
        call: &Call,
        usable: &Usable,
    ) -> Result<Vec<Begun>, NoMemory>
        requires clear { usable.now.clear ≡ is_clear (V.facts view.now) call.now.body }
        requires parts { usable.now.parts ≡ usable_parts (V.facts view.now) (V.sound view.now) call.now.body }
        ensures { IfOk result (λ begun. (r : Rank) (calls : List Call) → r.rank ≡ at.rank → length calls ≡ at.call → Sees r calls (V.facts view.now) (V.sound view.now) (V.starts view.now) types.now → IsOn r calls call.now.body on.entry → Keeps r calls self.now → AreBegun at.call begun.items (operations_at r calls call.now)) }
    {
        match &call.body {
            Body::Point(_) => begun_here(alloc, view, types, on, call, usable),
            Body::Persist(persist) => self.starts(alloc, view, usable.clear, persist),
            _ => Ok(Vec::new(alloc)),
        }
    }

    /// Puts in what a request asks for, where there are both.
    fn put(&mut self, request: Option<u32>, asked: Option<Asked>) -> Result<(), NoMemory>
        ensures { OnOk result ((n : ℕ) → get nat_cmp self.new.asked n ≡ with_asked (get nat_cmp self.old.asked) request asked n) }
    {
        let Some(request) = request else {
            return Ok(());
        };
        let Some(asked) = asked else {
            return Ok(());
        };
        self.asked.insert(request, asked)?;
        Ok(())
    }

    /// Keeps what the persistent request asks for that a call makes, if any.
    fn keep<V: View>(
        &mut self,
        alloc: Global,
        view: &V,
        types: &Datatypes,
        on: Option<Named<'_>>,
        call: &Call,
        usable: &Usable,
    ) -> Result<(), NoMemory>
        requires parts { usable.now.parts ≡ usable_parts (V.facts view.now) (V.sound view.now) call.now.body }
        requires persistent { is_persistent_kind call.now.body ≡ true }
        ensures { OnOk result ((r : Rank) (calls : List Call) → Sees r calls (V.facts view.now) (V.sound view.now) (V.starts view.now) types.now → IsOn r calls call.now.body on.entry → Keeps r calls self.old → Keeps r (calls ++ call.now ∷ []) self.new) }
    {
        let request = fresh_request(view, call);
        let asked = asked_once(alloc, types, on, call, usable.parts)?;
        self.put(request, asked)?;
        Ok(())
    }

    /// Lets go of what the request asks for that a call frees, which makes no persistent request.
    fn release(&mut self, call: &Call)
        requires { is_persistent_kind call.now.body ≡ false }
        ensures { (r : Rank) (calls : List Call) → Keeps r calls self.old → Keeps r (calls ++ call.now ∷ []) self.new }
    {
        let Some(request) = freed_request(call) else {
            return;
        };
        self.asked.remove(&request);
    }

    /// Takes the call into the table: one that makes a persistent request keeps what it asks for, one that frees it lets go. `on`
    /// and `usable` are as in `begins`. After an error the table isn't to be used any more.
    pub fn take<V: View>(
        &mut self,
        alloc: Global,
        view: &V,
        types: &Datatypes,
        on: Option<Named<'_>>,
        call: &Call,
        usable: &Usable,
    ) -> Result<(), NoMemory>
        requires parts { usable.now.parts ≡ usable_parts (V.facts view.now) (V.sound view.now) call.now.body }
        ensures { OnOk result ((r : Rank) (calls : List Call) → Sees r calls (V.facts view.now) (V.sound view.now) (V.starts view.now) types.now → IsOn r calls call.now.body on.entry → Keeps r calls self.old → Keeps r (calls ++ call.now ∷ []) self.new) }
    {
        if is_persistent_kind(&call.body) {
            self.keep(alloc, view, types, on, call, usable)
        } else {
            self.release(call);
            Ok(())
        }
    }
}
