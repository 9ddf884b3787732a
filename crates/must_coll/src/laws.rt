//! Laws of the rows of waves.

ghost use Rattle.std.specs.Prelude.{◌⊎◌, ◌↔◌, ◌++◌, ◌∷◌, [], List, Bool, filter, not, Some, ℕ, ◌≡◌, slice_get};
ghost use Rattle.must_find.specs.declared.finding.Finding.{Finding};
ghost use Rattle.must_find.specs.Rearranged.{Rearranges};
ghost use Rattle.must_group.specs.Names.{Name};
ghost use Rattle.must_coll.specs.declared.item.WaveItem.{WaveItem};
ghost use Rattle.must_coll.specs.Waves.{Orderly};
ghost use Rattle.must_coll.specs.Rows.{IsWaveRow, IsWholeRow, IsGapRow, IsWholeRowOf};

/// The rows of waves don't depend on the order of the items, fall apart between names, and grow with each call by those of its own wave.
pub fn waves_settle()
    ensures alike { (a b : List WaveItem) (f : Finding) → Orderly b → Rearranges a b → IsWaveRow a f → IsWaveRow b f }
    ensures either { (q : Name → Bool) (items : List WaveItem) (f : Finding) → IsWaveRow items f → IsWaveRow (filter (λ x. q x.name) items) f ⊎ IsWaveRow (filter (λ x. not (q x.name)) items) f }
    ensures cut { (q : Name → Bool) (items : List WaveItem) (f : Finding) → IsWaveRow (filter (λ x. q x.name) items) f → IsWaveRow items f }
    ensures kinds { (items : List WaveItem) (f : Finding) → IsWaveRow items f ↔ (IsWholeRow items f ⊎ IsGapRow items f) }
    ensures grows { (h : List WaveItem) (x : WaveItem) (position : ℕ) (f : Finding) → Orderly (h ++ x ∷ []) → Orderly h → slice_get x.name.members position ≡ Some x.place.rank → IsWholeRow (h ++ x ∷ []) f ↔ (IsWholeRow h f ⊎ IsWholeRowOf (h ++ x ∷ []) x f) }
{}
