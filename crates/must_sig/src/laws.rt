//! What the definitions mean. These functions do nothing.

ghost use Rattle.std.specs.Prelude.{◌≡◌, ◌↔◌, ◌+◌, ◌<◌, ◌≤◌, ℕ, List, None, length, slice_get};
ghost use Rattle.must_call.specs.declared.basic.Basic.{Basic};
ghost use Rattle.must_sig.specs.declared.run.Run.{Run};
ghost use Rattle.must_sig.specs.Signatures.{difference, laid, repeated};
ghost use Rattle.must_sig.specs.Places.{AgreeBelow};
ghost use Rattle.must_sig.specs.Runs.{AreRuns, AreMerged};

/// Two lists have no difference exactly where they are equal.
pub fn none_where_equal()
    ensures { (xs ys : List Basic) → difference xs ys ≡ None ↔ xs ≡ ys }
{}

/// Two lists that repeat a unit each, and agree over the sum of both unit lengths, agree as far as both go.
pub fn periods_agree()
    ensures { (m n : ℕ) (xs ys : List Basic) → AgreeBelow (length xs + length ys) (repeated m xs) (repeated n ys) → (i : ℕ) → i < length (repeated m xs) → i < length (repeated n ys) → slice_get (repeated m xs) i ≡ slice_get (repeated n ys) i }
{}

/// No runs of the same basic types are fewer than those that are merged.
pub fn merged_is_shortest()
    ensures { (unit runs : List Run) → AreRuns unit → AreMerged unit → laid runs ≡ laid unit → length unit ≤ length runs }
{}
