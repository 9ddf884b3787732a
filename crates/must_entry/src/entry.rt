//! What a rank contributes.

use crate::want::WayList;
use must_call::Place;
use must_coll::WaveItem;
use must_find::Finding;
use must_p2p::MsgItem;

/// One thing that a rank's calls give to the analysis of the run.
#[derive(Drop)]
pub enum Entry {
    /// What a rule found by looking at this rank alone.
    Row { finding: Finding },
    /// A send, a receive or a probe.
    Message { item: MsgItem },
    /// A collective call.
    Wave { item: WaveItem },
    /// What a call waits for.
    Need { place: Place, ways: WayList },
}
