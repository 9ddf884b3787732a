//! What a rank gives of a collective call.

ghost use Rattle.std.specs.Prelude.{◌≡◌};

use must_call::{Items, Kind, Place};
use must_group::{CommName, Group};
use must_sig::Sig;
use std::marker::Model;

/// The signatures of a call, one by one.
pub type SigList = Items<Sig>;

/// The operation of a reduction (MPI 3.1, 5.9).
#[derive(Clone, Copy, Debug, PartialEq, Eq)]
pub struct Oper {
    /// Its handle number.
    pub number: u32,
    /// Whether it was made as one that commutes; none for a predefined operation.
    pub commute: Option<bool>,
}

/// What a call of `MPI_Comm_split` gave; the color is -1 for `MPI_UNDEFINED`.
#[derive(Clone, Copy, Debug, PartialEq, Eq)]
pub struct ColorKey {
    pub color: i32,
    pub key: i32,
}

/// A collective call on a communicator, which is live and sound there (docs/RULES.md, "Waves").
#[derive(Drop)]
pub struct WaveItem {
    /// Where the call stands. A nonblocking call stands where it starts.
    pub place: Place,
    /// The communicator's handle number at the rank of the call.
    pub comm: u32,
    /// The communicator.
    pub name: CommName,
    /// How many collective calls of the rank on this communicator stand before.
    pub number: u32,
    pub kind: Kind,
    /// The call counts in the duties: it is clear, and its types and groups are sound.
    pub counts: bool,
    /// The program gave `MPI_IN_PLACE`.
    pub in_place: bool,
    /// The position of the root; 0 for kinds without a root.
    pub root: i32,
    pub operation: Option<Oper>,
    /// The significant signatures of what is sent, in member order, or one where the kind has one count.
    pub sends: SigList,
    /// The same of what is received.
    pub recvs: SigList,
    /// Color and key of a split.
    pub split: Option<ColorKey>,
    /// The group of `MPI_Comm_create`.
    pub group: Option<Group>,
    /// The recorded members of the communicator that was made; none where the call didn't return.
    pub members: Option<Group>,
}

/// The calls of a whole wave, in member order. Contracts see the list.
#[derive(Drop)]
pub struct WaveFact {
    places: Vec<Place>,
}

impl Model for WaveFact {
    ghost use Rattle.std.specs.Prelude.{List};
    ghost use Rattle.must_call.specs.declared.place.Place.{Place};

    ghost Value = { List Place };

    ghost view = { λ fact. fact.places.items };
}

impl WaveFact {
    /// The calls at these places. It takes no memory.
    pub fn from_vec(places: Vec<Place>) -> WaveFact
        ensures { result ≡ places.items }
    {
        WaveFact { places }
    }

    /// The places.
    pub fn items(&self) -> &[Place]
        ensures { result.now ≡ self.now }
    {
        &self.places
    }

    /// Gives the places back. It takes no memory.
    pub fn into_vec(self) -> Vec<Place>
        ensures { result.items ≡ self }
    {
        let WaveFact { places } = self;
        places
    }
}
