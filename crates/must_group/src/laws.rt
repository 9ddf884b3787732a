//! Laws of the definitions, in the words of the standard. The functions do nothing: their contracts are the laws.

ghost use Rattle.must_group.specs.GroupLaws.{UnionLaw, IntersectionLaw, DifferenceLaw, Associates, ValidLaw, FirstBadLaw, InclLaw, ExclLaw};
ghost use Rattle.must_group.specs.NameLaws.{NamesRise};
ghost use Rattle.must_group.specs.SplitLaws.{ByKeyLaw};

/// A union has the members of either group, each once: those of the first in front, then the others in the second's order.
pub fn union_law()
    ensures { UnionLaw }
{}

/// An intersection has the members of both groups, each once, in the first's order.
pub fn intersection_law()
    ensures { IntersectionLaw }
{}

/// A difference has the members of the first group that the second lacks, each once, in the first's order.
pub fn difference_law()
    ensures { DifferenceLaw }
{}

/// Unions and intersections are associative.
pub fn associative_law()
    ensures { Associates }
{}

/// A list of ranks has no bad place exactly where all are positions and distinct.
pub fn valid_law()
    ensures { ValidLaw }
{}

/// The first bad place is the first at which the ranks up to there aren't distinct positions.
pub fn first_bad_law()
    ensures { FirstBadLaw }
{}

/// The process at position i of an inclusion had the i-th listed rank in the old group.
pub fn incl_law()
    ensures { InclLaw }
{}

/// An exclusion leaves the processes whose rank isn't listed, in the old order.
pub fn excl_law()
    ensures { ExclLaw }
{}

/// There is one order of rows by key with ties in their old order.
pub fn by_key_law()
    ensures { ByKeyLaw }
{}

/// Names are ordered by root, then path, then members, lists by their first difference, and a proper prefix comes first.
pub fn name_order_law()
    ensures { NamesRise }
{}
