//! Calls on operations, groups and communicators (MPI 3.1 sections 5.9.5, 6.3 and 6.4).

ghost use Rattle.std.specs.Prelude.{◌≡◌};
ghost use Rattle.std.specs.Option.{option_map};
ghost use Rattle.must_call.specs.declared.body.Body.TheVariants as body;
ghost use Rattle.must_call.specs.Kinds.{kind_of};
ghost use Rattle.must_call.specs.Bodies.{inputs_of, given_of};
ghost use Rattle.must_call.specs.Arguments.{all_seen, output_seen};

use crate::argument::{Argument, Arguments, Given, given_comm, given_made, listed};
use crate::class::Class;
use crate::field::{Flag, Handle, Int, Ints};
use crate::items::MadeComm;
use crate::kind::Kind;
use crate::lists::IntList;

/// A call that makes or frees an operation, a group or a communicator.
#[derive(Drop)]
pub enum Object {
    /// `MPI_Op_create`.
    OpCreate {
        commute: bool,
        made: Option<u32>,
    },
    /// `MPI_Op_free`.
    OpFree {
        op: u32,
    },
    /// `MPI_Comm_group`.
    CommGroup {
        comm: u32,
        made: Option<u32>,
    },
    /// `MPI_Group_incl`.
    GroupIncl {
        group: u32,
        ranks: IntList,
        made: Option<u32>,
    },
    /// `MPI_Group_excl`.
    GroupExcl {
        group: u32,
        ranks: IntList,
        made: Option<u32>,
    },
    /// `MPI_Group_union`.
    GroupUnion {
        first: u32,
        second: u32,
        made: Option<u32>,
    },
    /// `MPI_Group_intersection`.
    GroupIntersection {
        first: u32,
        second: u32,
        made: Option<u32>,
    },
    /// `MPI_Group_difference`.
    GroupDifference {
        first: u32,
        second: u32,
        made: Option<u32>,
    },
    /// `MPI_Group_free`.
    GroupFree {
        group: u32,
    },
    /// `MPI_Comm_dup`.
    CommDup {
        comm: u32,
        made: Option<MadeComm>,
    },
    /// `MPI_Comm_split`.
    CommSplit {
        comm: u32,
        color: i32,
        key: i32,
        made: Option<MadeComm>,
    },
    /// `MPI_Comm_create`.
    CommCreate {
        comm: u32,
        group: u32,
        made: Option<MadeComm>,
    },
    /// `MPI_Comm_free`.
    CommFree {
        comm: u32,
    },
}

impl Object {
    /// The kind of the call.
    pub fn kind(&self) -> Kind
        ensures { result ≡ kind_of (body.Object self.now) }
    {
        match self {
            Object::OpCreate { .. } => Kind::OpCreate,
            Object::OpFree { .. } => Kind::OpFree,
            Object::CommGroup { .. } => Kind::CommGroup,
            Object::GroupIncl { .. } => Kind::GroupIncl,
            Object::GroupExcl { .. } => Kind::GroupExcl,
            Object::GroupUnion { .. } => Kind::GroupUnion,
            Object::GroupIntersection { .. } => Kind::GroupIntersection,
            Object::GroupDifference { .. } => Kind::GroupDifference,
            Object::GroupFree { .. } => Kind::GroupFree,
            Object::CommDup { .. } => Kind::CommDup,
            Object::CommSplit { .. } => Kind::CommSplit,
            Object::CommCreate { .. } => Kind::CommCreate,
            Object::CommFree { .. } => Kind::CommFree,
        }
    }

    /// The fields that stand in each record of the kind.
    pub fn inputs(&self) -> Arguments<'_>
        ensures { all_seen result.items ≡ inputs_of (body.Object self.now) }
    {
        match self {
            Object::OpCreate { commute, .. } => listed(&[Argument::Bit(Flag::Commute, *commute)]),
            Object::OpFree { op } => listed(&[Argument::Handle(Handle::Operation, *op)]),
            Object::CommGroup { comm, .. }
            | Object::CommDup { comm, .. }
            | Object::CommFree { comm } => listed(&[Argument::Handle(Handle::Comm, *comm)]),
            Object::GroupIncl { group, ranks, .. } | Object::GroupExcl { group, ranks, .. } =>
                listed(&[
                    Argument::Handle(Handle::Group, *group),
                    Argument::Ints(Ints::Ranks, ranks),
                ]),
            Object::GroupUnion { first, second, .. }
            | Object::GroupIntersection { first, second, .. }
            | Object::GroupDifference { first, second, .. } => listed(&[
                Argument::Handle(Handle::Group, *first),
                Argument::Handle(Handle::Group, *second),
            ]),
            Object::GroupFree { group } => listed(&[Argument::Handle(Handle::Group, *group)]),
            Object::CommSplit {
                comm,
                color,
                key,
                ..
            } => listed(&[
                Argument::Handle(Handle::Comm, *comm),
                Argument::I32(Int::Color, *color),
                Argument::I32(Int::Key, *key),
            ]),
            Object::CommCreate { comm, group, .. } => listed(&[
                Argument::Handle(Handle::Comm, *comm),
                Argument::Handle(Handle::Group, *group),
            ]),
        }
    }

    /// The outputs, where they stand.
    pub fn given(&self) -> Option<Given<'_>>
        ensures { option_map output_seen result ≡ given_of (body.Object self.now) }
    {
        match self {
            Object::OpCreate { made, .. } => given_made(Class::Operation, made),
            Object::OpFree { .. } | Object::GroupFree { .. } | Object::CommFree { .. } => None,
            Object::CommGroup { made, .. }
            | Object::GroupIncl { made, .. }
            | Object::GroupExcl { made, .. }
            | Object::GroupUnion { made, .. }
            | Object::GroupIntersection { made, .. }
            | Object::GroupDifference { made, .. } => given_made(Class::Group, made),
            Object::CommDup { made, .. }
            | Object::CommSplit { made, .. }
            | Object::CommCreate { made, .. } => given_comm(made),
        }
    }
}
