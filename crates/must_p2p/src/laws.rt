//! Laws of matches and of the rows of messages. The functions do nothing: their contracts are the laws.

ghost use Rattle.std.specs.Prelude.{◌≡◌, ◌⊎◌, ◌↔◌, ◌++◌, ◌∷◌, [], Bool, true, List, filter, not};
ghost use Rattle.must_base.specs.Listing.{Has};
ghost use Rattle.must_find.specs.declared.finding.Finding.{Finding};
ghost use Rattle.must_find.specs.Rearranged.{Rearranges};
ghost use Rattle.must_p2p.specs.declared.item.MsgItem.{MsgItem};
ghost use Rattle.must_p2p.specs.declared.side.Side.{Side};
ghost use Rattle.must_p2p.specs.Items.{class_of, is_earlier, Orderly};
ghost use Rattle.must_p2p.specs.Matching.{IsLone, IsMatch, IsMatchRow, IsMessageRow, IsRowOf};
ghost use Rattle.must_p2p.specs.PlaceLaws.{SameSpot};
ghost use Rattle.must_p2p.specs.SetLaws.{KeepsClasses};

/// At a rank, call, rule and part stands at most one row of these items.
pub fn rows_are_apart()
    ensures { (items : List MsgItem) (f g : Finding) → Orderly items → IsMessageRow items f → IsMessageRow items g → SameSpot f g → f ≡ g }
{}

/// A send matches at most one receive, and a receive at most one send.
pub fn one_partner()
    ensures receive { (items : List MsgItem) (s r t : MsgItem) → Orderly items → IsMatch items s r → IsMatch items s t → r ≡ t }
    ensures send { (items : List MsgItem) (s t r : MsgItem) → Orderly items → IsMatch items s r → IsMatch items t r → s ≡ t }
{}

/// Messages of one class don't overtake one another: of two sends the earlier is received first (MPI 3.1, 3.5). And a send
/// and a receive of one class don't both stay without a match.
pub fn messages_in_order()
    ensures order { (items : List MsgItem) (s r t u : MsgItem) → Orderly items → IsMatch items s r → IsMatch items t u → class_of s ≡ class_of t → is_earlier s t ≡ true → is_earlier r u ≡ true }
    ensures progress { (items : List MsgItem) (s r : MsgItem) → Orderly items → Has items s → Has items r → s.side ≡ Side.Send → r.side ≡ Side.Receive → class_of s ≡ class_of r → IsLone items s → IsLone items r → ⊥ }
{}

/// One item more brings the row of its own match and changes no other row of a match, so what `put` adds, item by item, are the
/// rows of all matches.
pub fn rows_add_up()
    ensures { (items : List MsgItem) (item : MsgItem) (f : Finding) → Orderly (items ++ item ∷ []) → IsMatchRow (items ++ item ∷ []) f ↔ (IsMatchRow items f ⊎ IsRowOf (items ++ item ∷ []) item f) }
{}

/// Matches and rows are the same in whatever order the items come.
pub fn order_is_free()
    ensures matches { (items others : List MsgItem) (s r : MsgItem) → Rearranges items others → IsMatch items s r ↔ IsMatch others s r }
    ensures rows { (items others : List MsgItem) (f : Finding) → Rearranges items others → IsMessageRow items f ↔ IsMessageRow others f }
{}

/// Whatever way the items are parted in two so that no class is split, the rows are those of the one part and of the other.
pub fn classes_settle_apart()
    ensures { (p : MsgItem → Bool) (items : List MsgItem) (f : Finding) → KeepsClasses p → IsMessageRow items f ↔ (IsMessageRow (filter p items) f ⊎ IsMessageRow (filter (λ x. not (p x)) items) f) }
{}
