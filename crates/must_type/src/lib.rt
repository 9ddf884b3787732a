//! The datatypes of one rank: trees of types, with their bounds and weights (docs/TYPES.md).
//!
//! A `TypeTable` has the predefined types and those that the calls of a program made. Each type is a tree that shares its
//! old types, so `make` takes memory and time for the numbers of its own call alone. No call lays a type map out: the
//! size, the bounds, the depth and the weight of a type are computed once, when it is made, from those of its old types.
//!
//! `bounds`, `weight`, `tree`, `free` and the calls of `Tree` take constant time, and `make`, `can_make`, `construct_of` and
//! `Construct::is_allowed` time for the lists of the call. A table keeps a word for each type that was ever made.
//!
//! What types, maps and tables mean stands in specs: `Maps` (entries, bounds, blocks), `Constructs` (the map of what a call
//! makes), `Weights` (its weight), `Allowed` and `Olds` (the numbers of a call, and the old types that it names), `Tree`
//! (trees, depth, reach), `Making` (what is true of a type that was made), `Table` (numbers, limit, predefined types),
//! `Translation` (from recorded calls). `Summaries` and `Facts` are the numbers that the code keeps of a map.
//!
//! A crate that walks trees needs the clauses of `Tree::basic`, `made` and `old`, and the laws of `MapLaws` (maps without
//! bytes, cells of a part, one dimension more), `ConstructLaws` (the numbers of old types don't matter) and `TableLaws`
//! (types by their numbers).
#![tactic(auto)]

mod allowed;
mod bounds;
mod construct;
mod facts;
mod fault;
mod forms;
mod laws;
mod layout;
mod places;
mod slots;
mod summary;
mod table;
#[cfg(test)]
mod tests;
mod translation;
mod tree;
mod weight;

pub use bounds::Bounds;
pub use construct::{Construct, StructItem, StructList, TypeNo};
pub use fault::{Limit2, TypeFault};
pub use laws::{cells_rise, padding_is_least};
pub use must_call::{
    Dim, DimList, DispList, HdispList, HindexItem, HindexList, IndexItem, IndexList,
};
pub use table::TypeTable;
pub use translation::{TypeHandles, construct_of};
pub use tree::{Origin, Tree};
