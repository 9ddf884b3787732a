//! What is inner to a range.

ghost use Rattle.std.specs.Prelude.{◌≡◌};
ghost use Rattle.must_entry.specs.Lawful.{in_range};
ghost use Rattle.must_node.specs.Inner.{all_in, is_inner};

use must_entry::{Entry, RankRange};

/// Whether a range has this rank.
fn has_rank(range: RankRange, rank: u32) -> bool
    ensures { result ≡ in_range range rank }
{
    range.from <= rank && rank < range.to
}

/// Whether a range has all of these ranks.
fn has_all(range: RankRange, ranks: &[u32]) -> bool
    ensures { result ≡ all_in range ranks.now }
{
    for rank in ranks {
        if !has_rank(range, *rank) {
            return false;
        }
    }
    true
}

/// Whether an entry is inner.
pub(crate) fn is_inner(root: bool, range: RankRange, entry: &Entry) -> bool
    ensures { result ≡ is_inner root range entry.now }
{
    root || match entry {
        Entry::Row { finding } => has_rank(range, finding.rank),
        Entry::Message { item } => has_rank(range, item.source) && has_rank(range, item.dest),
        Entry::Wave { item } => has_all(range, item.name.members().ranks()),
        Entry::Need { .. } => false,
    }
}
