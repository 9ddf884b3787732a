//! Where a replay stands, and which places are reached there.

ghost use Rattle.std.specs.Prelude.{◌≡◌, length, is_some};
ghost use Rattle.must_wait.specs.Counted.{counted};
ghost use Rattle.must_wait.specs.Needs.{needs_of};
ghost use Rattle.must_wait.specs.Replay.{reached};
ghost use Rattle.must_wait.specs.Shared.{coded};

use crate::shared::SharedRows;
use must_call::Place;

/// Whether a place is a call.
pub(crate) fn is_call(rows: &SharedRows, place: Place) -> bool
    ensures { result ≡ is_some (needs_of (coded rows.now) place.rank place.call) }
{
    (place.call as usize) < rows.call_count(place.rank)
}

/// Whether a place is a reached call, where so many calls of each rank are passed.
pub(crate) fn is_reached(rows: &SharedRows, done: &[u32], place: Place) -> bool
    requires { length done.now ≡ length (coded rows.now) }
    ensures { result ≡ reached (coded rows.now) (counted done.now) place.rank place.call }
{
    is_call(rows, place) && place.call <= done[place.rank as usize]
}
