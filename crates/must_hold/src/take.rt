//! How a call changes the operations that are held: it completes some, frees or cancels one, and begins others.

ghost use Rattle.std.specs.Prelude.{◌≡◌, ◌++◌, ◌∷◌, [], ℕ, Bool, false, List, length, map, find, Option, Some, None, IfOk, OnOk};
ghost use Rattle.std.specs.Ordering.{nat_cmp};
ghost use Rattle.std.specs.BTreeMap.{get};
ghost use Rattle.must_call.specs.declared.call.Call.{Call};
ghost use Rattle.must_rules.specs.Rank.{Rank};
ghost use Rattle.must_rules.specs.Making.{is_in};
ghost use Rattle.must_rules.specs.Numbered.{AreNumbered};
ghost use Rattle.must_rules.specs.Operations.{Operation, operations_at, operations_of};
ghost use Rattle.must_messages.specs.Asking.{AreBegun};
ghost use Rattle.std.specs.Prelude.{◌≤◌, is_some};
ghost use Rattle.std.specs.Option.{option_to_list};
ghost use Rattle.std.specs.List.{AllByRecursion, list_any};
ghost use Rattle.must_call.specs.declared.class.Class.TheVariants.{Request};
ghost use Rattle.must_rules.specs.Making.{cancelled_of};
ghost use Rattle.must_rules.specs.Lives.{ends};
ghost use Rattle.must_rules.specs.Operations.{Message};
ghost use Rattle.must_messages.specs.OperationLaws.{IsBegunBelow};
ghost use Rattle.must_messages.specs.Asking.{IsAsked, IsBegun, action_seen};
ghost use Rattle.must_rules.specs.Fates.{own_status, own_statuses};
ghost use Rattle.must_rules.specs.Statuses.{contradiction};
ghost use Rattle.must_hold.specs.Queue.{Holds, HoldsWhile, Shows, EndsHere, IsNew, is_done};
ghost use Rattle.must_hold.specs.Taking.{Takes};
ghost use Rattle.must_hold.specs.Changes.{Closes, ClosesOthers, not_done, is_either};
ghost use Rattle.must_hold.specs.Told.{end_told};
ghost use Rattle.must_hold.specs.Needing.{Tells, HaveNeeds, HaveNeedsWhile};

use crate::completed::{cancelled, completed, completions, freed};
use crate::held::{End, Held, Need, Pending};
use crate::item::item_ended;
use crate::judge::{Told, end_told, judge_all};
use crate::need::{need_ended, set_need};
use crate::table::{Table, not_done};
use must_base::NoMemory;
use must_call::{Call, Given, Place, Status3};
use must_find::Findings;
use must_messages::{Asked, Begun, Deed, contradiction};
use std::alloc::Global;
use std::collections::BTreeMap;

/// How the operation of a request ended that call `k` completed.
fn end_for(k: u32, told: &BTreeMap<u32, Told>, request: u32) -> End
    ensures { result ≡ end_told k (get nat_cmp told.now request) }
{
    end_told(k, told.get(&request).copied())
}

/// Ends the open operations of these requests, which call `k` completes, as their statuses say.
fn end_completed(
    table: &mut Table,
    needs: &mut Vec<Need>,
    rank: u32,
    k: u32,
    requests: &[u32],
    told: &BTreeMap<u32, Told>,
) -> Result<(), NoMemory>
    ensures needs { OnOk result ((r : Rank) (calls : List Call) (call : Call) (ops : List Operation) → HoldsWhile r calls call (λ q. false) ops table.old → Closes r calls call ops rank requests.now (λ q. end_told k (get nat_cmp told.now q)) → HaveNeedsWhile r calls call (λ q. false) ops needs.old.items → HaveNeedsWhile r calls call (is_in requests.now) ops needs.new.items) }
    ensures given { OnOk result (table.new.given ≡ table.old.given) }
    ensures ended { OnOk result ((r : Rank) (calls : List Call) (call : Call) (ops : List Operation) → HoldsWhile r calls call (λ q. false) ops table.old → Closes r calls call ops rank requests.now (λ q. end_told k (get nat_cmp told.now q)) → HoldsWhile r calls call (is_in requests.now) ops table.new) }
{
    for request in requests {
        let end = end_for(k, told, *request);
        let settling = table.end(rank, *request, end)?;
        set_need(needs, settling);
    }
    Ok(())
}

/// Ends the open operation of a request that a call frees.
fn end_freed(
    table: &mut Table,
    needs: &mut Vec<Need>,
    rank: u32,
    request: Option<u32>,
) -> Result<(), NoMemory>
    ensures needs { OnOk result ((r : Rank) (calls : List Call) (call : Call) (ops : List Operation) (done : List ℕ) → HoldsWhile r calls call (is_in done) ops table.old → ClosesOthers r calls call ops rank done (option_to_list request) not_done → HaveNeedsWhile r calls call (is_in done) ops needs.old.items → HaveNeedsWhile r calls call (is_either done (option_to_list request)) ops needs.new.items) }
    ensures given { OnOk result (table.new.given ≡ table.old.given) }
    ensures ended { OnOk result ((r : Rank) (calls : List Call) (call : Call) (ops : List Operation) (done : List ℕ) → HoldsWhile r calls call (is_in done) ops table.old → ClosesOthers r calls call ops rank done (option_to_list request) not_done → HoldsWhile r calls call (is_either done (option_to_list request)) ops table.new) }
{
    if let Some(request) = request {
        let end = not_done();
        let settling = table.end(rank, request, end)?;
        set_need(needs, settling);
    }
    Ok(())
}

/// Notes that a call asks to cancel the open operation of a request.
fn cancel_named(table: &mut Table, request: Option<u32>) -> Result<(), NoMemory>
    ensures given { OnOk result (table.new.given ≡ table.old.given) }
    ensures ended { OnOk result ((r : Rank) (calls : List Call) (call : Call) (ops : List Operation) (done : ℕ → Bool) → AllByRecursion (IsBegunBelow (length calls)) ops → ((q : ℕ) → ends false Request q call ≡ done q) → request ≡ cancelled_of call.body → HoldsWhile r calls call done ops table.old → Holds r (calls ++ call ∷ []) ops table.new) }
{
    if let Some(request) = request {
        table.cancel(request)?;
    }
    Ok(())
}

/// The status in a call's own record.
fn own_status(call: &Call) -> Option<Status3>
    ensures { result ≡ own_status call.now }
{
    if !call.returned {
        return None;
    }
    match call.body.given() {
        Some(Given::Status(status)) => Some(status),
        Some(Given::MaybeStatus(status)) => status,
        _ => None,
    }
}

/// The status of what is done in a call that returned; a send has none.
fn status_here(deed: Deed, call: &Call) -> Option<Status3>
    ensures { option_to_list result ≡ own_statuses (action_seen deed) call.now }
{
    match deed {
        Deed::Send { .. } => None,
        Deed::Receive | Deed::Probe => own_status(call),
    }
}

/// A status contradicts what was asked for, if there is one.
fn contradicts(tag_ub: i32, asked: &Asked, status: Option<Status3>) -> bool
    ensures { (m : Message) → IsAsked asked.now m → result ≡ list_any (λ status. is_some (contradiction tag_ub m false status)) (option_to_list status) }
{
    match status {
        Some(status) => contradiction(tag_ub, asked, false, status).is_some(),
        None => false,
    }
}

/// How an operation ended that is done in call `k`, which returned.
fn own_end(tag_ub: i32, k: u32, asked: &Asked, call: &Call) -> End
    ensures { (m : Message) → IsAsked asked.now m → EndsHere tag_ub k m call.now result }
{
    let status = status_here(asked.deed, call);
    End {
        status,
        done: Some(k),
        breaks: contradicts(tag_ub, asked, status),
    }
}

/// An operation with this request is done in its call.
fn is_done(request: Option<u32>, returned: bool) -> bool
    ensures { result ≡ is_done request returned }
{
    match request {
        Some(_) => false,
        None => returned,
    }
}

/// What is held of an operation that call `k` begins, and what it needs as it stands.
fn held_at(rank: u32, tag_ub: i32, k: u32, call: &Call, begun: Begun) -> (Held, Need)
    ensures shows { (r : Rank) (calls : List Call) (op : Operation) → r.rank ≡ rank → r.tag_ub ≡ tag_ub → length calls ≡ k → IsBegun k begun op → Shows r (calls ++ call.now ∷ []) result.0 op }
    ensures tells { (r : Rank) (calls : List Call) (op : Operation) → r.rank ≡ rank → r.tag_ub ≡ tag_ub → length calls ≡ k → IsBegun k begun op → Tells r (calls ++ call.now ∷ []) result.1 op }
{
    let pending = Pending {
        call: k,
        part: begun.part,
        request: begun.request,
        asked: begun.asked,
        cancel: false,
    };
    if !is_done(pending.request, call.returned) {
        let need = need_ended(&pending, not_done());
        return (Held::Open(pending), need);
    }
    let end = own_end(tag_ub, k, &pending.asked, call);
    let need = need_ended(&pending, end);
    (Held::Settled(item_ended(rank, pending, end)), need)
}

/// Holds an operation that call `k` begins.
fn begin_one(
    table: &mut Table,
    needs: &mut Vec<Need>,
    rank: u32,
    tag_ub: i32,
    k: u32,
    call: &Call,
    begun: Begun,
) -> Result<(), NoMemory>
    ensures needs { OnOk result ((r : Rank) (calls : List Call) (op : Operation) (ops : List Operation) → r.rank ≡ rank → r.tag_ub ≡ tag_ub → length calls ≡ k → IsBegun k begun op → HaveNeeds r (calls ++ call.now ∷ []) ops needs.old.items → HaveNeeds r (calls ++ call.now ∷ []) (ops ++ op ∷ []) needs.new.items) }
    ensures holds { OnOk result ((r : Rank) (calls : List Call) (op : Operation) (ops : List Operation) → r.rank ≡ rank → r.tag_ub ≡ tag_ub → length calls ≡ k → IsBegun k begun op → IsNew (calls ++ call.now ∷ []) ops op → table.old.given ≤ length ops → Holds r (calls ++ call.now ∷ []) ops table.old → Holds r (calls ++ call.now ∷ []) (ops ++ op ∷ []) table.new × (table.new.given ≡ table.old.given)) }
{
    let request = begun.request;
    let (held, need) = held_at(rank, tag_ub, k, call, begun);
    table.push(held, request)?;
    needs.push(need)?;
    Ok(())
}

/// Holds the operations that call `k` begins.
pub fn begin(
    table: &mut Table,
    needs: &mut Vec<Need>,
    rank: u32,
    tag_ub: i32,
    k: u32,
    call: &Call,
    begun: Vec<Begun>,
) -> Result<(), NoMemory>
    ensures needs { OnOk result ((r : Rank) (calls : List Call) → r.rank ≡ rank → r.tag_ub ≡ tag_ub → length calls ≡ k → AreBegun k begun.items (operations_at r calls call.now) → HaveNeeds r (calls ++ call.now ∷ []) (operations_of r calls) needs.old.items → HaveNeeds r (calls ++ call.now ∷ []) (operations_of r (calls ++ call.now ∷ [])) needs.new.items) }
    ensures holds { OnOk result ((r : Rank) (calls : List Call) → r.rank ≡ rank → r.tag_ub ≡ tag_ub → length calls ≡ k → AreNumbered 64 (calls ++ call.now ∷ []) → AreBegun k begun.items (operations_at r calls call.now) → table.old.given ≤ length (operations_of r calls) → Holds r (calls ++ call.now ∷ []) (operations_of r calls) table.old → Holds r (calls ++ call.now ∷ []) (operations_of r (calls ++ call.now ∷ [])) table.new × (table.new.given ≡ table.old.given)) }
{
    let mut begun = begun;
    begun.reverse();
    while let Some(one) = begun.pop() {
        begin_one(table, needs, rank, tag_ub, k, call, one)?;
    }
    Ok(())
}

/// Takes a call: `begun` are the operations that it begins. Adds the rows of S1 at its completions.
pub fn take_call(
    alloc: Global,
    table: &mut Table,
    needs: &mut Vec<Need>,
    at: Place,
    tag_ub: i32,
    call: &Call,
    begun: Vec<Begun>,
    rows: &mut Findings,
) -> Result<(), NoMemory>
    ensures needs { OnOk result ((r : Rank) (calls : List Call) → r.rank ≡ at.rank → r.tag_ub ≡ tag_ub → length calls ≡ at.call → AreNumbered 64 (calls ++ call.now ∷ []) → AreBegun at.call begun.items (operations_at r calls call.now) → Holds r calls (operations_of r calls) table.old → HaveNeeds r calls (operations_of r calls) needs.old.items → HaveNeeds r (calls ++ call.now ∷ []) (operations_of r (calls ++ call.now ∷ [])) needs.new.items) }
    ensures takes { OnOk result ((r : Rank) (calls : List Call) → r.rank ≡ at.rank → r.tag_ub ≡ tag_ub → length calls ≡ at.call → AreNumbered 64 (calls ++ call.now ∷ []) → AreBegun at.call begun.items (operations_at r calls call.now) → Holds r calls (operations_of r calls) table.old → Takes r calls call.now table.old table.new rows.old rows.new) }
{
    let completions = completions(alloc, call)?;
    let told = judge_all(alloc, table, at, tag_ub, &completions, rows)?;
    let requests = completed(alloc, call)?;
    end_completed(table, needs, at.rank, at.call, &requests, &told)?;
    end_freed(table, needs, at.rank, freed(call))?;
    cancel_named(table, cancelled(call))?;
    begin(table, needs, at.rank, tag_ub, at.call, call, begun)?;
    Ok(())
}
