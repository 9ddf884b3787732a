//! Laws of the rows of a run.

ghost use Rattle.std.specs.Prelude.{◌≡◌, ◌≤◌, ◌+◌, ◌++◌, [], ℕ, List, Some, length, slice_get};
ghost use Rattle.must_find.specs.declared.finding.Finding.{Finding};
ghost use Rattle.must_coll.specs.declared.item.WaveItem.{WaveItem};
ghost use Rattle.must_rules.specs.Run.{Run, Recorded, Mode, size_of};
ghost use Rattle.must_rules.specs.RunRows.{rank_in};
ghost use Rattle.must_items.specs.CollectiveLists.{AreItemsOf};
ghost use Rattle.must_run.specs.RunWaves.{AreItemsBelow, AreRunItems};
ghost use Rattle.must_find.specs.Rearranged.{Rearranges};
ghost use Rattle.must_p2p.specs.declared.item.MsgItem.{MsgItem};
ghost use Rattle.must_entry.specs.declared.entry.Entry.{Entry};
ghost use Rattle.must_entry.specs.Entries.{Waits, messages, calls, needs};
ghost use Rattle.must_wait.specs.Needs.{Rows};
ghost use Rattle.must_node.specs.Facts.{facts_of};
ghost use Rattle.must_node.specs.Partners.{needs as fact_needs};
ghost use Rattle.must_node.specs.Waits.{IsWaitRow};
ghost use Rattle.must_messages.specs.MessageItems.{AreMessagesOf};
ghost use Rattle.must_messages.specs.CallNeeds.{needs_of};
ghost use Rattle.must_run.specs.RunMessages.{AreMessagesBelow, AreRunMessages, needs_below, needs_in};
ghost use Rattle.must_run.specs.RunGiven.{Given, IsGivenBy};
ghost use Rattle.must_run.specs.RunRows.{AreRunRows};
ghost use Rattle.must_run.specs.RunWaits.{facts_with, waits_in};

/// The items of a run are those of its ranks, one behind the other.
pub fn items_of_ranks()
    ensures first { (run : Run) → AreItemsBelow run 0 [] }
    ensures more { (run : Run) (k : ℕ) (recorded : Recorded) (xs ys : List WaveItem) → slice_get run.ranks k ≡ Some recorded → AreItemsBelow run k xs → AreItemsOf (rank_in (size_of run) k recorded) recorded.calls ys → AreItemsBelow run (k + 1) (xs ++ ys) }
    ensures all { (run : Run) (k : ℕ) (xs : List WaveItem) → length run.ranks ≤ k → AreItemsBelow run k xs → AreRunItems run xs }
{}

/// The messages of a run are those of its ranks, one behind the other.
pub fn messages_of_ranks()
    ensures first { (run : Run) → AreMessagesBelow run 0 [] }
    ensures more { (run : Run) (k : ℕ) (recorded : Recorded) (xs ys : List MsgItem) → slice_get run.ranks k ≡ Some recorded → AreMessagesBelow run k xs → AreMessagesOf (rank_in (size_of run) k recorded) recorded.calls ys → AreMessagesBelow run (k + 1) (xs ++ ys) }
    ensures all { (run : Run) (k : ℕ) (xs : List MsgItem) → length run.ranks ≤ k → AreMessagesBelow run k xs → AreRunMessages run xs }
{}

/// What the calls of a run wait for is what those of its ranks do, one behind the other.
pub fn needs_of_ranks()
    ensures first { (run : Run) → needs_below run 0 ≡ [] }
    ensures more { (run : Run) (k : ℕ) (recorded : Recorded) (ws vs : List Waits) → slice_get run.ranks k ≡ Some recorded → ws ≡ needs_below run k → vs ≡ needs_of (rank_in (size_of run) k recorded) recorded.calls → ws ++ vs ≡ needs_below run (k + 1) }
    ensures all { (run : Run) (k : ℕ) (ws : List Waits) → length run.ranks ≤ k → ws ≡ needs_below run k → ws ≡ needs_in run }
{}

/// A run has one list of rows at the most: two lists that are its rows are the same list.
pub fn rows_are_one()
    ensures { (run : Run) (mode : Mode) (rows others : List Finding) → AreRunRows run mode rows → AreRunRows run mode others → rows ≡ others }
{}

/// At a place stands at most one row of a blocked call, and what the calls of a run wait for is told by its calls alone, in whatever form
/// its messages and waves are given. The facts that a root has are those of messages, of waves and of needs, in another order.
pub fn waits_are_one()
    ensures rows { (rows : Rows) (f g : Finding) → IsWaitRow rows f → IsWaitRow rows g → f.rank ≡ g.rank → f.call ≡ g.call → f ≡ g }
    ensures replay { (run : Run) (mode : Mode) (given other : Given) → IsGivenBy run given → IsGivenBy run other → waits_in run mode given ≡ waits_in run mode other }
    ensures facts { (es : List Entry) → Rearranges (facts_of es) (facts_with (messages es) (calls es) (needs es)) }
    ensures needs { (ms : List MsgItem) (xs : List WaveItem) (ws : List Waits) → fact_needs (facts_with ms xs ws) ≡ ws }
{}
