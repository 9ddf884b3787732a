//! Positions in a group, as a list names them.

ghost use Rattle.std.specs.Prelude.{◌≡◌, ◌≤◌, ◌<◌, ◌^◌, ◌∷◌, ◌++◌, [], IsTrue, IfSome, nat_eq, position};
ghost use Rattle.std.specs.List.{IsDistinct};
ghost use Rattle.std.specs.List.Sorted.{IsNonDecreasing};
ghost use Rattle.must_group.specs.Groups.{position_of, first_bad};

/// For how many members a table of marks stands on the stack.
const MARKS: usize = 1024;

/// The position that a rank names among `members`, if it names one.
fn position_of(members: usize, rank: i32) -> Option<usize>
    ensures { result ≡ position_of members rank }
{
    if rank < 0 {
        return None;
    }
    let position = rank as usize;
    if position < members {
        Some(position)
    } else {
        None
    }
}

/// The first bad place, by a mark for each position that was listed.
fn first_by_marks(members: usize, listed: &[i32]) -> Option<usize>
    requires { members ≤ MARKS }
    ensures first { result ≡ first_bad members listed.now }
    ensures small { IfSome result (λ place. place < 2 ^ 32) }
{
    let mut seen = [false; MARKS];
    for (place, rank) in listed.iter().enumerate() {
        let Some(position) = position_of(members, *rank) else {
            return Some(place);
        };
        if seen[position] {
            return Some(place);
        }
        seen[position] = true;
    }
    None
}

/// The first bad place, by a look at all listed before.
fn first_by_scan(members: usize, listed: &[i32]) -> Option<usize>
    ensures first { result ≡ first_bad members listed.now }
    ensures small { IfSome result (λ place. place < 2 ^ 32) }
{
    for (place, rank) in listed.iter().enumerate() {
        if position_of(members, *rank).is_none() || listed[..place].contains(rank) {
            return Some(place);
        }
    }
    None
}

/// The first place of a list that is bad for a group of so many members.
///
/// Linear where the group has at most 1024 members, as each group of a run has; else quadratic in the place found.
pub(crate) fn first_bad_place(members: usize, listed: &[i32]) -> Option<usize>
    ensures first { result ≡ first_bad members listed.now }
    ensures small { IfSome result (λ place. place < 2 ^ 32) }
{
    if members <= MARKS {
        first_by_marks(members, listed)
    } else {
        first_by_scan(members, listed)
    }
}

/// The place of a rank in a list that rises.
pub(crate) fn place_in_rising(ranks: &[u32], rank: u32) -> Option<usize>
    requires { IsDistinct nat_eq ranks.now × IsNonDecreasing ranks.now }
    ensures place { result ≡ position (λ member. nat_eq member rank) ranks.now }
    ensures small { IfSome result (λ place. place < 2 ^ 32) }
{
    ranks.binary_search(&rank).ok()
}

fn first_place(ranks: &[u32], rank: u32) -> Option<usize>
    ensures { result ≡ position (λ member. nat_eq member rank) ranks.now }
{
    ranks.iter().position(|member| *member == rank)
}

/// The place of a rank in a list in any order.
pub(crate) fn place_in(ranks: &[u32], rank: u32) -> Option<usize>
    requires { IsDistinct nat_eq ranks.now }
    ensures place { result ≡ position (λ member. nat_eq member rank) ranks.now }
    ensures small { IfSome result (λ place. place < 2 ^ 32) }
{
    first_place(ranks, rank)
}

/// The rank is above the last of a list.
pub(crate) fn is_behind(ranks: &[u32], rank: u32) -> bool
    ensures { IsTrue result → IsNonDecreasing ranks.now → IsNonDecreasing (ranks.now ++ rank ∷ []) }
{
    match ranks.last() {
        None => true,
        Some(last) => *last < rank,
    }
}
