//! Calls of a recorded rank: what one record of a stream says.
//!
//! A call is its kind with the fields of its payload (docs/FORMAT.md). Kinds stand in families, one enum and one
//! module a family.
//!
//! # Cost
//!
//! No call of this crate takes memory, and each takes constant time. `Call::number` and `Call::handle` pass over the
//! fields of the call, 11 at most, and find an item of a list by its place, however long the list is. `from_vec` and
//! `into_vec` of a list move its vector. A call that is dropped frees its lists, and that is all it frees.
#![tactic(auto)]

mod argument;
mod basic;
mod body;
mod call;
mod class;
mod collective;
mod constants;
mod derive;
mod field;
mod finish;
mod frame;
mod handle;
mod items;
mod kind;
mod life;
mod lists;
mod number;
mod object;
mod persist;
mod place;
mod point;
mod row;
mod started;
mod status;
#[cfg(test)]
mod tests;

pub use argument::{Argument, Arguments, Given};
pub use basic::Basic;
pub use body::Body;
pub use call::Call;
pub use class::Class;
pub use collective::Collective;
pub use constants::{
    ANY_SOURCE, ANY_TAG, COMM_SELF, COMM_WORLD, FIRST_MADE, GROUP_EMPTY, NULL_HANDLE, PROC_NULL,
    UNDEFINED,
};
pub use derive::Derive;
pub use field::{Aint, Field, Flag, Handle, Int, Ints, Item, Output, Side};
pub use finish::Finish;
pub use frame::Frame;
pub use items::{Amount, Choice, Completion, Dim, HindexItem, IndexItem, MadeComm, StructBlock};
pub use kind::Kind;
pub use life::Life;
pub use lists::{
    AmountList, CompletionList, DimList, DispList, HandleList, HdispList, HindexList, IndexList,
    IntList, Items, MemberList, StatusList, StructBlockList,
};
pub use object::Object;
pub use persist::Persist;
pub use place::Place;
pub use point::Point;
pub use started::Started;
pub use status::Status3;
