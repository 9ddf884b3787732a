//! The rule of an inbox, and the kinds of step, for the queue.

use crate::view::View;
use crossbeam_queue::protocol::{Join, Lesson, Outcome, Protocol, Split};
use must_entry::Batch;
use std::marker::{Brand, PhantomData};

/// The rule that every step keeps.
pub struct Law;

impl Protocol<(u32, Batch), View> for Law {
    ghost use Rattle.must_inbox.specs.Rule.{Kept, opened};

    ghost holds = { Kept };

    ghost first = { opened };
}

/// The range of the port that a call splits off.
pub trait Given {
    ghost use Rattle.must_entry.specs.declared.range.RankRange.{RankRange};

    ghost range: { RankRange };
}

impl Given for Brand {
    ghost range = { record { from = 0; to = 0 } };
}

/// A port is split off. A split is told of views alone, so its range comes as a ghost member of the type.
pub struct SplitOff<K> {
    marker: PhantomData<K>,
}

impl<K: Given> Split<View> for SplitOff<K> {
    ghost use Rattle.must_inbox.specs.Rule.{grown, started};

    ghost left = { grown K.range };

    ghost right = { started K.range };
}

/// A port is joined.
pub struct JoinPort;

impl Join<View> for JoinPort {
    ghost use Rattle.must_inbox.specs.declared.view.View.TheVariants.{Spent};
    ghost use Rattle.must_inbox.specs.Rule.{with_joined};

    ghost both = { with_joined };

    ghost spent = { Spent };
}

/// A batch is pushed.
pub struct Push;

impl Outcome<(u32, Batch), View> for Push {
    ghost use Rattle.must_inbox.specs.Rule.{Sends};

    ghost then = { Sends };
}

/// An entry is popped, or none is found.
pub struct Take;

impl Outcome<(u32, Batch), View> for Take {
    ghost use Rattle.must_inbox.specs.Rule.{Takes};

    ghost then = { Takes };
}

impl Lesson<(u32, Batch), View> for Take {
    ghost use Rattle.must_inbox.specs.Rule.{Empties};

    ghost fact = { Empties };
}
