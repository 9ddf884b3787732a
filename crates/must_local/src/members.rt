//! The members that a communicator may have.

ghost use Rattle.std.specs.Prelude.{◌≡◌, true};
ghost use Rattle.must_local.specs.Objects.{AreMembers};

/// A run has at most so many ranks (docs/FORMAT.md).
const MOST_RANKS: usize = 1024;

/// Whether these are distinct ranks, each below 1,024. Linear, and without memory.
pub fn are_members(members: &[u32]) -> bool
    ensures { result ≡ true → AreMembers members.now }
{
    if members.len() > MOST_RANKS {
        return false;
    }
    let mut marks = [false; MOST_RANKS];
    for member in members {
        let place = *member as usize;
        if place >= MOST_RANKS {
            return false;
        }
        if marks[place] {
            return false;
        }
        marks[place] = true;
    }
    true
}
