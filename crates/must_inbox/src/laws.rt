//! Laws of what children send. The functions do nothing: their contracts are the laws.

ghost use Rattle.std.specs.Prelude.{◌≡◌, ◌++◌, ℕ, List, Some, true, slice_get};
ghost use Rattle.must_entry.specs.declared.range.RankRange.{RankRange};
ghost use Rattle.must_entry.specs.declared.batch.Batch.{Batch};
ghost use Rattle.must_entry.specs.Lawful.{in_range, IsLawful};
ghost use Rattle.must_inbox.specs.Children.{of_child, batches_of, of_rank, AreCovered, IsOrderly};

/// A front of a lawful list is lawful for the same range.
pub fn fronts_are_lawful()
    ensures { (range : RankRange) (xs ys : List Batch) → IsLawful range (xs ++ ys) → IsLawful range xs }
{}

/// What children sent is lawful together, in whatever order it was taken: for a range that covers theirs, where each child's batches
/// are lawful for its own range and no two ranges share a rank.
pub fn children_are_lawful_together()
    ensures { (whole : RankRange) (ranges : List RankRange) (got : List (ℕ × Batch)) → IsOrderly ranges got → AreCovered ranges whole → IsLawful whole (batches_of got) }
{}

/// Of a rank of a child's range, what was taken is what was taken of that child.
pub fn ranks_come_by_children()
    ensures { (ranges : List RankRange) (got : List (ℕ × Batch)) (k : ℕ) (range : RankRange) (rank : ℕ) → IsOrderly ranges got → slice_get ranges k ≡ Some range → in_range range rank ≡ true
        → of_rank rank (batches_of got) ≡ of_rank rank (of_child k got) }
{}
