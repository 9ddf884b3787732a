//! Why a type isn't made.

ghost use Rattle.std.specs.Prelude.{◌≡◌};
ghost use Rattle.must_type.specs.declared.fault.TypeFault.TheVariants.{NoMemory as OutOfMemory};

use must_base::NoMemory;

/// What a type would exceed.
#[derive(Clone, Copy, Debug, PartialEq, Eq)]
pub enum Limit2 {
    /// The weight of the derived types that are live.
    Weight,
    /// The reach of a type.
    Reach,
}

#[derive(Clone, Copy, Debug, PartialEq, Eq)]
pub enum TypeFault {
    TooWide { limit: Limit2 },
    NoMemory,
}

impl From<NoMemory> for TypeFault {
    ghost from_gives = { λ _ e. e ≡ OutOfMemory };

    fn from(_e: NoMemory) -> TypeFault {
        TypeFault::NoMemory
    }
}
