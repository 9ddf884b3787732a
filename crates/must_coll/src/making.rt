//! What communicators the calls of a kind make.

ghost use Rattle.std.specs.Prelude.{◌≡◌};
ghost use Rattle.must_coll.specs.Made.{making_of};

use must_call::Kind;

/// What communicators the calls of a kind make (MPI 3.1, 6.4.2).
#[derive(Clone, Copy)]
pub(crate) enum Making {
    /// They make none.
    Nothing,
    /// A duplicate.
    Duplicate,
    /// One for each color.
    Split,
    /// One of a group.
    Create,
}

/// What communicators the calls of a kind make.
pub(crate) fn making_of(kind: Kind) -> Making
    ensures { result ≡ making_of kind }
{
    match kind {
        Kind::CommDup => Making::Duplicate,
        Kind::CommSplit => Making::Split,
        Kind::CommCreate => Making::Create,
        _ => Making::Nothing,
    }
}
