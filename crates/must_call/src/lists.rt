//! Lists of a call. Contracts see each as the list of its items.

ghost use Rattle.std.specs.Prelude.{◌≡◌};

use crate::items::{Amount, Completion, Dim, HindexItem, IndexItem, StructBlock};
use crate::status::Status3;
use std::marker::Model;

/// A list. Its items are taken over from a vector and given back as one, so that no list is copied.
#[derive(Drop)]
pub struct Items<T> {
    items: Vec<T>,
}

impl<T> Model for Items<T> {
    ghost use Rattle.std.specs.Prelude.{List};

    ghost Value = { List T };

    ghost view = { λ l. l.items.items };
}

impl<T> Items<T> {
    /// The list of these items. It takes no memory.
    pub fn from_vec(items: Vec<T>) -> Self
        ensures { result ≡ items.items }
    {
        Items { items }
    }

    /// The items.
    pub fn items(&self) -> &[T]
        ensures { result.now ≡ self.now }
    {
        &self.items
    }

    /// Gives the items back. It takes no memory.
    pub fn into_vec(self) -> Vec<T>
        ensures { result.items ≡ self }
    {
        let Items { items } = self;
        items
    }
}

/// Handles of requests.
pub type HandleList = Items<u32>;

/// World ranks of the members of a communicator.
pub type MemberList = Items<u32>;

/// Ranks of a group, or counts by member.
pub type IntList = Items<i32>;

/// The displacements of `MPI_Type_create_indexed_block`, in extents of the old type.
pub type DispList = Items<i32>;

/// The displacements of `MPI_Type_create_hindexed_block`, in bytes.
pub type HdispList = Items<i64>;

/// The blocks of `MPI_Type_indexed`.
pub type IndexList = Items<IndexItem>;

/// The blocks of `MPI_Type_create_hindexed`.
pub type HindexList = Items<HindexItem>;

/// The blocks of `MPI_Type_create_struct`.
pub type StructBlockList = Items<StructBlock>;

/// The dimensions of `MPI_Type_create_subarray`.
pub type DimList = Items<Dim>;

/// What goes to or comes from each member.
pub type AmountList = Items<Amount>;

/// A status for each request.
pub type StatusList = Items<Status3>;

/// The requests that were completed.
pub type CompletionList = Items<Completion>;
