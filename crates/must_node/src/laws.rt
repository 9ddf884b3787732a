//! Laws of nodes and of the levels of a tree. The functions do nothing: their contracts are the laws.

ghost use Rattle.std.specs.Prelude.{◌≡◌, ◌⊎◌, ◌↔◌, ◌++◌, [], ℕ, Bool, List, map, Some, None, true, false, slice_get};
ghost use Rattle.std.specs.Option.{option_map};
ghost use Rattle.std.specs.List.{AllByRecursion};
ghost use Rattle.must_base.specs.Listing.{Has};
ghost use Rattle.must_find.specs.declared.finding.Finding.{Finding};
ghost use Rattle.must_find.specs.Rearranged.{Rearranges};
ghost use Rattle.must_p2p.specs.declared.item.MsgItem.{MsgItem};
ghost use Rattle.must_p2p.specs.declared.side.Side.TheVariants as side;
ghost use Rattle.must_p2p.specs.Items.{class_of, Orderly};
ghost use Rattle.must_p2p.specs.Matching.{IsMatch, IsLone};
ghost use Rattle.must_coll.specs.declared.item.WaveItem.{WaveItem};
ghost use Rattle.must_coll.specs.Waves as waves;
ghost use Rattle.must_entry.specs.declared.entry.Entry.{Entry};
ghost use Rattle.must_entry.specs.declared.entry.Entry.TheVariants.{Message, Wave};
ghost use Rattle.must_entry.specs.declared.range.RankRange.{RankRange};
ghost use Rattle.must_entry.specs.declared.batch.Batch.{Batch};
ghost use Rattle.must_entry.specs.Entries as entry;
ghost use Rattle.must_entry.specs.Entries.{messages, calls, entries_of};
ghost use Rattle.must_entry.specs.Lawful.{IsLawful, Rise};
ghost use Rattle.must_node.specs.declared.fact.Fact.{Fact};
ghost use Rattle.must_node.specs.EntryRows.{IsRow};
ghost use Rattle.must_node.specs.Facts.{facts_of};
ghost use Rattle.must_node.specs.Inner.{within, inner, outer};
ghost use Rattle.must_node.specs.Nodes.{all_up};
ghost use Rattle.must_node.specs.Levels.{Part, all_given, all_left, IsRowOfOne, all_facts, AreApart, IsInside, AreLevels, IsRowOfLevels, facts_of_levels};
ghost use Rattle.must_node.specs.Partners.{meeting_of, needs, needs_of_rank, place_of, past, place_or, wave_places};
ghost use Rattle.must_node.specs.RunNeeds.{run_needs};
ghost use Rattle.must_node.specs.PartnerLaws.{numbered};
ghost use Rattle.must_node.specs.MemberLaws.{told};
ghost use Rattle.must_node.specs.TreeLaws.{Child, parts_of, AreChildren};

/// Rows and facts of entries don't depend on their order.
pub fn order_is_free()
    ensures rows { (a b : List Entry) (f : Finding) → waves.Orderly (calls b) → Rearranges a b → IsRow a f → IsRow b f }
    ensures facts { (a b : List Entry) → Rearranges a b → Rearranges (facts_of a) (facts_of b) }
{}

/// What a node hands up of lawful batches is lawful, and has exactly the entries that aren't inner.
pub fn handed_up_is_lawful()
    ensures lawful { (range : RankRange) (batches : List Batch) → IsLawful range batches → IsLawful range (all_up false range batches) }
    ensures entries { (range : RankRange) (batches : List Batch) → entries_of (all_up false range batches) ≡ outer false range (entries_of batches) }
{}

/// Nodes whose ranges have no rank in common and that are given lawful batches are apart: nothing that one was given is inner to
/// another.
pub fn children_are_apart()
    ensures { (children : List Child) → AreChildren children → AreApart (parts_of children) }
{}

/// All messages of a class come to one node of a level where it settles one of them, and it settles them all; and so do all
/// calls of a communicator.
pub fn one_node_settles()
    ensures class { (parts : List Part) (i j : ℕ) (p q : Part) (x y : MsgItem) → AreApart parts → slice_get parts i ≡ Some p → slice_get parts j ≡ Some q → Has p.given (Message x) → Has q.given (Message y) → class_of x ≡ class_of y
        → within p.range (Message x) ≡ true → (i ≡ j) × (within p.range (Message y) ≡ true) }
    ensures name { (parts : List Part) (i j : ℕ) (p q : Part) (x y : WaveItem) → AreApart parts → slice_get parts i ≡ Some p → slice_get parts j ≡ Some q → Has p.given (Wave x) → Has q.given (Wave y) → x.name ≡ y.name
        → within p.range (Wave x) ≡ true → (i ≡ j) × (within p.range (Wave y) ≡ true) }
{}

/// What the nodes of a level were given has the rows and the facts that they close with, and those of what they hand up.
pub fn level_settles()
    ensures rows { (parts : List Part) (f : Finding) → AreApart parts → IsRow (all_given parts) f ↔ (IsRowOfOne parts f ⊎ IsRow (all_left parts) f) }
    ensures facts { (parts : List Part) → AreApart parts → Rearranges (facts_of (all_given parts)) (all_facts parts ++ facts_of (all_left parts)) }
{}

/// What is inner to the range of a node above others has the rows and the facts that these close with, and those of what the node
/// settles of that which they hand up.
pub fn node_settles()
    ensures rows { (range : RankRange) (parts : List Part) (f : Finding) → AreApart parts → AllByRecursion (λ (part : Part). IsInside part.range range) parts
        → IsRow (inner false range (all_given parts)) f ↔ (IsRowOfOne parts f ⊎ IsRow (inner false range (all_left parts)) f) }
    ensures facts { (range : RankRange) (parts : List Part) → AreApart parts → AllByRecursion (λ (part : Part). IsInside part.range range) parts
        → Rearranges (facts_of (inner false range (all_given parts))) (all_facts parts ++ facts_of (inner false range (all_left parts))) }
{}

/// Whatever the levels of a tree are, all its nodes close with the rows and the facts of all entries: `left`, what is handed up
/// last, is what the root settles.
pub fn levels_settle()
    ensures rows { (given : List Entry) (levels : List (List Part)) (left : List Entry) (f : Finding) → waves.Orderly (calls given) → AreLevels given levels left → IsRow given f ↔ (IsRowOfLevels levels f ⊎ IsRow left f) }
    ensures facts { (given : List Entry) (levels : List (List Part)) (left : List Entry) → AreLevels given levels left → Rearranges (facts_of given) (facts_of_levels levels ++ facts_of left) }
{}

/// Of facts in any order: the partner of a send or a receive is the one of its match, and there is none where it has no match.
pub fn partners_are_matches()
    ensures receive { (entries : List Entry) (facts : List Fact) → Rearranges facts (facts_of entries) → (s r : MsgItem) → Orderly (messages entries) → IsMatch (messages entries) s r → place_of side.Receive facts (meeting_of (numbered (messages entries) s)) ≡ Some r.place }
    ensures send { (entries : List Entry) (facts : List Fact) → Rearranges facts (facts_of entries) → (s r : MsgItem) → Orderly (messages entries) → IsMatch (messages entries) s r → place_of side.Send facts (meeting_of (numbered (messages entries) r)) ≡ Some s.place }
    ensures no_receive { (entries : List Entry) (facts : List Fact) → Rearranges facts (facts_of entries) → (s : MsgItem) → Has (messages entries) s → s.side ≡ side.Send → IsLone (messages entries) s → place_of side.Receive facts (meeting_of (numbered (messages entries) s)) ≡ None }
    ensures no_send { (entries : List Entry) (facts : List Fact) → Rearranges facts (facts_of entries) → (r : MsgItem) → Has (messages entries) r → r.side ≡ side.Receive → IsLone (messages entries) r → place_of side.Send facts (meeting_of (numbered (messages entries) r)) ≡ None }
{}

/// Of facts in any order: the places of a wave are those of its calls, and where a member has none, one past its last call.
pub fn waves_are_told()
    ensures { (entries : List Entry) (facts : List Fact) → Rearranges facts (facts_of entries) → waves.Orderly (calls entries) → (x : WaveItem) → wave_places facts (Some (told x)) ≡ map (λ rank. place_or (past facts rank) (option_map (λ (z : WaveItem). z.place) (waves.call_of (calls entries) x.name x.number rank))) x.name.members }
{}

/// The needs that facts tell are those of the entries, in their order, and a node below the root has none. So whatever nodes
/// there are, the needs of a rank's calls come from the root, in the order of its calls.
pub fn needs_come_from_the_root()
    ensures told { (entries : List Entry) → needs (facts_of entries) ≡ entry.needs entries }
    ensures none { (range : RankRange) (entries : List Entry) → needs (facts_of (inner false range entries)) ≡ [] }
{}

/// The needs of a run are the same of facts in any order, where the needs of each rank stand in one order: so are its blocked
/// calls, whatever nodes gave the facts.
pub fn needs_are_free()
    ensures { (entries : List Entry) (a b : List Fact) → Rearranges a (facts_of entries) → Rearranges b (facts_of entries) → Orderly (messages entries) → waves.Orderly (calls entries) → Rise (map (λ (x : WaveItem). x.place) (calls entries)) → ((rank : ℕ) → needs_of_rank a rank ≡ needs_of_rank b rank)
        → (strict : Bool) (size : ℕ) → run_needs strict a size ≡ run_needs strict b size }
{}
