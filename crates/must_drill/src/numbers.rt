//! The numbers of a run.

ghost use Rattle.std.specs.Prelude.{◌≡◌, ◌+◌, ◌<◌, ◌≤◌, ◌^◌};
ghost use Rattle.must_drill.specs.Numbers.{next_state as next_state_of, count_in as count_in_of, left_of as left_in, right_of as right_in, is_long as is_long_in, sent_in as sent_of, round_of as round_from};

use crate::round::Round;

/// The state of the generator behind one step, modulo 2^64.
#[tactic(auto, unfolding(crate::specs::Numbers::next_state))]
pub(crate) fn next_state(state: u64) -> u64
    ensures { result ≡ next_state_of state }
{
    state
        .wrapping_mul(6_364_136_223_846_793_005)
        .wrapping_add(1_442_695_040_888_963_407)
}

/// How many items the messages of a round with this state have, 1 to 16.
#[tactic(auto, unfolding(crate::specs::Numbers::count_in))]
fn count_in(state: u64) -> u16
    ensures exact { result ≡ count_in_of state }
    ensures few { result ≤ 16 }
{
    (1 + state / 8_589_934_592 % 16) as u16
}

fn left_of(ranks: u32, rank: u32) -> u16
    requires rank { rank < ranks }
    requires ranks { ranks ≤ 1024 }
    ensures { result ≡ left_in ranks rank }
{
    ((rank + ranks - 1) % ranks) as u16
}

fn right_of(ranks: u32, rank: u32) -> u16
    requires rank { rank < ranks }
    requires ranks { ranks ≤ 1024 }
    ensures { result ≡ right_in ranks rank }
{
    ((rank + 1) % ranks) as u16
}

/// Whether the rank sends one item too many in the round `m`: rank 0 does so in each tenth round.
fn is_long(number: u64, rank: u32, m: u32) -> bool
    ensures { result ≡ is_long_in number rank m }
{
    rank == 0 && u64::from(m) % 10 == number % 10
}

fn sent_in(number: u64, rank: u32, m: u32, count: u16) -> u16
    requires { count ≤ 16 }
    ensures { result ≡ sent_of number rank m count }
{
    if is_long(number, rank, m) {
        count + 1
    } else {
        count
    }
}

/// The round `m` of a rank, with this state.
#[tactic(auto, unfolding(crate::specs::Numbers::round_of))]
pub(crate) fn round_of(ranks: u32, number: u64, rank: u32, m: u32, state: u64) -> Round
    requires rank { rank < ranks }
    requires ranks { ranks ≤ 1024 }
    requires m { m < 1000 }
    ensures exact { result ≡ round_from ranks number rank m (count_in_of state) }
    ensures first { result.first + 3 < 2 ^ 32 }
{
    let count = count_in(state);
    Round {
        left: left_of(ranks, rank),
        right: right_of(ranks, rank),
        count,
        sent: sent_in(number, rank, m, count),
        first: 66 + 4 * m,
    }
}
