//! What a type knows of itself, computed once when it is made.

ghost use Rattle.std.specs.Prelude.{◌≡◌, ◌≤◌, ◌^◌};
ghost use Rattle.must_type.specs.Facts.{IsSettled};

use crate::bounds::Bounds;
use crate::summary::Summary;

/// What a type knows of itself.
#[derive(Clone, Copy, Debug, PartialEq, Eq)]
pub struct Facts {
    pub summary: Summary,
    pub bounds: Bounds,
    pub depth: u32,
    pub weight: u64,
}
