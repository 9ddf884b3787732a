//! How the calls of a kind exchange data.

ghost use Rattle.std.specs.Prelude.{◌≡◌};
ghost use Rattle.must_coll.specs.Amounts.{exchange_of, part_of, is_reduction, is_free};
ghost use Rattle.must_coll.specs.Uniform.{is_uniform};

use must_call::Kind;

/// How the calls of a wave exchange data, which tells the amounts that must be the same (docs/RULES.md, C4).
#[derive(Clone, Copy)]
pub(crate) enum Exchange {
    /// No amounts are compared.
    Nothing,
    /// The root sends one signature to all.
    Bcast,
    /// Each member sends to the root, which receives the same from each.
    Gather,
    /// Each member sends to the root, which receives an amount of its own from each.
    Gatherv,
    /// The root sends the same to each member.
    Scatter,
    /// The root sends an amount of its own to each member.
    Scatterv,
    /// Each member sends the same to each, and receives the same from each.
    Alltoall,
    /// Each member sends the same to each, and receives an amount of its own from each.
    Allgatherv,
    /// Each member sends and receives an amount of its own for each.
    Alltoallv,
    /// Each member gives one signature.
    Reduce,
    /// Each member gives one signature for each member.
    ReduceScatter,
}

/// How the calls of a kind exchange.
pub(crate) fn exchange_of(kind: Kind) -> Exchange
    ensures { result ≡ exchange_of kind }
{
    match kind {
        Kind::Bcast | Kind::Ibcast => Exchange::Bcast,
        Kind::Gather | Kind::Igather => Exchange::Gather,
        Kind::Gatherv => Exchange::Gatherv,
        Kind::Scatter => Exchange::Scatter,
        Kind::Scatterv => Exchange::Scatterv,
        Kind::Allgather | Kind::Iallgather | Kind::Alltoall | Kind::Ialltoall => Exchange::Alltoall,
        Kind::Allgatherv => Exchange::Allgatherv,
        Kind::Alltoallv => Exchange::Alltoallv,
        Kind::Reduce
        | Kind::Ireduce
        | Kind::Allreduce
        | Kind::Iallreduce
        | Kind::ReduceScatterBlock
        | Kind::Scan
        | Kind::Exscan => Exchange::Reduce,
        Kind::ReduceScatter => Exchange::ReduceScatter,
        _ => Exchange::Nothing,
    }
}

impl Exchange {
    /// Whether the calls are compared with the first that counts.
    pub(crate) fn is_reduction(self) -> bool
        ensures { result ≡ is_reduction self }
    {
        matches!(self, Exchange::Reduce | Exchange::ReduceScatter)
    }

    /// Whether each member sends the same to each and receives the same from each.
    pub(crate) fn is_uniform(self) -> bool
        ensures { result ≡ is_uniform self }
    {
        matches!(self, Exchange::Alltoall)
    }

    /// Whether no amounts are compared.
    pub(crate) fn is_free(self) -> bool
        ensures { result ≡ is_free self }
    {
        matches!(self, Exchange::Nothing)
    }

    /// 1 where the signature that a finding is about is of what is received.
    pub(crate) fn part(self) -> u32
        ensures { result ≡ part_of self }
    {
        match self {
            Exchange::Scatter
            | Exchange::Scatterv
            | Exchange::Alltoall
            | Exchange::Allgatherv
            | Exchange::Alltoallv => 1,
            _ => 0,
        }
    }
}
