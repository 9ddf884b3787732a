//! Laws of the message items and of the needs of a rank.

ghost use Rattle.std.specs.Prelude.{◌≡◌, ◌<◌, ◌++◌, ◌∷◌, [], ℕ, List, Some, true, is_some, length, map, filter_map, option_map};
ghost use Rattle.std.specs.List.{AllByRecursion, list_any};
ghost use Rattle.must_base.specs.Listing.{Has};
ghost use Rattle.must_call.specs.declared.class.Class.TheVariants.{Request};
ghost use Rattle.must_call.specs.declared.call.Call.{Call};
ghost use Rattle.must_p2p.specs.declared.item.MsgItem.{MsgItem};
ghost use Rattle.must_p2p.specs.Items.{Orderly};
ghost use Rattle.must_entry.specs.Lawful.{Rise};
ghost use Rattle.must_rules.specs.Answer.{Answer};
ghost use Rattle.must_rules.specs.Making.{completes};
ghost use Rattle.must_rules.specs.Rank.{Rank, seen};
ghost use Rattle.must_rules.specs.Numbered.{AreNumbered};
ghost use Rattle.must_rules.specs.Turns.{turn};
ghost use Rattle.must_rules.specs.Operations.{Operation, operations_at, operations_of};
ghost use Rattle.must_messages.specs.ActiveLaws.{IsActive};
ghost use Rattle.must_rules.specs.Fates.{Completed, Open, fate_of, statuses_for};
ghost use Rattle.must_rules.specs.Statuses.{asked_to_cancel, breaks_status, completed_wrongly, contradiction, open_wildcard};
ghost use Rattle.must_messages.specs.WildLaws.{HasRow, IsWildAt};
ghost use Rattle.must_messages.specs.FateLaws.{first_fate, next_fate};
ghost use Rattle.must_messages.specs.MessageItems.{item_of, items_of, AreMessagesOf};
ghost use Rattle.must_messages.specs.CallNeeds.{needs_of, waits_of};
ghost use Rattle.must_messages.specs.Holding.{front, held, is_known, is_told, items_given, needs_given, untold};
ghost use Rattle.must_messages.specs.ItemOrderLaws.{IsMessageAt};

/// What becomes of an operation is told call by call: the call that begins it says how it starts, and each later call how it
/// goes on.
pub fn fates_go_on()
    ensures first { (calls : List Call) (call : Call) (op : Operation) → op.call ≡ length calls → fate_of (calls ++ call ∷ []) op ≡ first_fate op op.request call }
    ensures next { (calls : List Call) (call : Call) (op : Operation) → op.call < length calls → fate_of (calls ++ call ∷ []) op ≡ next_fate (length calls) op.request call (fate_of calls op) }
{}

/// An operation that is open is the one that is under way with its request, so that requests can be told call by call where handles
/// are numbered as streams have them.
pub fn requests_are_active()
    ensures { (r : Rank) (calls : List Call) → AreNumbered 64 calls → AllByRecursion (IsActive r calls) (operations_of r calls) }
{}

/// A completion of the request of an open operation is judged by that operation, and the operation breaks S1 where one of these
/// statuses does.
pub fn statuses_are_judged()
    ensures completion { (r : Rank) (calls : List Call) (op : Operation) (c : Completed) → AreNumbered 64 calls → Has (operations_of r calls) op → op.request ≡ Some c.request → fate_of calls op ≡ Open → completed_wrongly r calls (Some c) ≡ option_map (λ value. (seen r.rank op.call, value)) (contradiction r.tag_ub op.message (asked_to_cancel calls op) c.status) }
    ensures broken { (r : Rank) (calls : List Call) (call : Call) (op : Operation) (q : ℕ) → op.call < length calls → op.request ≡ Some q → fate_of calls op ≡ Open → completes Request q call ≡ true → breaks_status r (calls ++ call ∷ []) op ≡ list_any (λ status. is_some (contradiction r.tag_ub op.message (asked_to_cancel calls op) status)) (statuses_for q call) }
{}

/// N1 stands at the call and part of each operation that is an open wildcard, and nowhere else.
pub fn open_wildcards_have_rows()
    ensures each { (r : Rank) (calls : List Call) → AllByRecursion (HasRow r calls) (operations_of r calls) }
    ensures only { (r : Rank) (calls : List Call) (k part : ℕ) (answer : Answer) → open_wildcard r calls k part ≡ Some answer → IsWildAt r calls k part answer }
{}

/// The items of a rank stand at its end of each message, rise by call and part, and have each communicator by one handle number:
/// they are what channels and nodes may be given.
pub fn messages_in_order()
    ensures placed { (r : Rank) (calls : List Call) (items : List MsgItem) → AreMessagesOf r calls items → AllByRecursion (IsMessageAt r.rank) items }
    ensures orderly { (r : Rank) (calls : List Call) (items : List MsgItem) → AreNumbered 64 calls → AreMessagesOf r calls items → Orderly items }
{}

/// The items that are given stay as they are; one call more gives those of the operations that are settled then, up to the first
/// that is open; and when the calls end the others follow.
pub fn messages_settle()
    ensures more { (r : Rank) (calls : List Call) (call : Call) → items_given r (calls ++ call ∷ []) ≡ items_given r calls ++ filter_map (item_of r (calls ++ call ∷ [])) (front (is_known (calls ++ call ∷ [])) (held r calls ++ operations_at r calls call)) }
    ensures whole { (r : Rank) (calls : List Call) → items_of r calls ≡ items_given r calls ++ filter_map (item_of r calls) (held r calls) }
{}

/// The same of needs: a call's need is given once all operations that it names are settled, and those of all calls before it are
/// given. Needs rise by call.
pub fn needs_settle()
    ensures more { (r : Rank) (calls : List Call) (call : Call) → needs_given r (calls ++ call ∷ []) ≡ needs_given r calls ++ map (waits_of r (calls ++ call ∷ [])) (front (is_told r (calls ++ call ∷ [])) (untold r calls ++ turn calls call ∷ [])) }
    ensures whole { (r : Rank) (calls : List Call) → needs_of r calls ≡ needs_given r calls ++ map (waits_of r calls) (untold r calls) }
    ensures rising { (r : Rank) (calls : List Call) → Rise (map (λ w. w.place) (needs_of r calls)) }
{}
