//! Trees of types: each type with the types that it was made from.

ghost use Rattle.std.specs.Prelude.{◌≡◌, ℕ, pos, ◌+◌, ◌≤◌, ◌<◌, ◌^◌, [], ◌∷◌, length, slice_get, ◌↔◌, IsTrue, Some, MatchOption};
ghost use Rattle.std.specs.Option.{option_copied, option_map, IsSome};
ghost use Rattle.must_type.specs.Maps.{Element, size, extent};
ghost use Rattle.must_type.specs.declared.tree.Origin.TheVariants.{Derived};
ghost use Rattle.must_type.specs.Weights.{weight_of};
ghost use Rattle.must_type.specs.Allowed.{IsAllowed};
ghost use Rattle.must_type.specs.Olds.{old_numbers};
ghost use Rattle.must_type.specs.Facts.{bounds_of, facts_of};
ghost use Rattle.must_type.specs.Making.{IsMakeable, IsMadeBy};
ghost use Rattle.must_type.specs.Tree.{TypeTree, Elementary, Made, type_map, weight, weighed, height, basic_of, call_of, old_at, old_maps, old_weights, as_old, IsWithinReach};
ghost use Rattle.must_type.specs.Table.{IsDerived};
ghost use Rattle.must_type.specs.View.{trees_of};

use crate::bounds::Bounds;
use crate::construct::Construct;
use crate::facts::Facts;
use crate::forms::settle;
use crate::summary::{Span, Summary};
use must_call::Basic;
use std::marker::Model;
use std::rc::Rc;

/// Whether a type is there from the start.
#[derive(Clone, Copy, Debug, PartialEq, Eq)]
pub enum Origin {
    Predefined,
    Derived,
}

#[cycle(tree)]
#[derive(Drop)]
enum Node {
    Elementary(Basic),
    Made(Origin, Construct, Vec<Rc<Tree>>),
}

/// A type with all that it was made from. Old types are shared, so a tree takes memory for its own numbers alone. It is
/// at most 257 deep.
#[cycle(tree)]
#[derive(Drop)]
pub struct Tree {
    node: Node,
    facts: Facts,
}

impl Model for Tree {
    ghost use Rattle.std.specs.Prelude.{◌≡◌};
    ghost use Rattle.must_type.specs.Tree.{TypeTree};
    ghost use Rattle.must_type.specs.TreeCode.{tree_code};

    ghost Value = { TypeTree };

    ghost coded = { tree_code };

    ghost use Rattle.must_type.specs.Tree.{height};
    ghost use Rattle.must_type.specs.View.{tree_of};
    ghost use Rattle.must_type.specs.Facts.{facts_of};
    ghost use Rattle.must_type.specs.Making.{IsMakeable};

    ghost view = { λ a. tree_of a.node };

    ghost invariant = { λ a. (a.facts ≡ facts_of (tree_of a.node)) × IsMakeable (tree_of a.node) };

    ghost size = { height };

    ghost use Rattle.must_type.specs.Falls.{falls};

    ghost size_decreases = { λ a h. falls a.node };
}

impl Tree {
    /// The basic type.
    pub(crate) fn elementary(basic: Basic) -> Tree
        ensures { result ≡ Elementary basic }
    {
        let size = basic.size();
        let bytes = i128::from(size);
        let summary = Summary {
            size: u128::from(size),
            alignment: size,
            elements: Some(Span {
                low: 0,
                high: bytes,
            }),
            lowers: None,
            uppers: None,
        };
        let bounds = Bounds {
            size: bytes,
            lb: 0,
            ub: bytes,
            extent: bytes,
        };
        Tree {
            node: Node::Elementary(basic),
            facts: Facts {
                summary,
                bounds,
                depth: 0,
                weight: 1,
            },
        }
    }

    /// The type that the call makes, where it lies within reach.
    pub(crate) fn derive(
        origin: Origin,
        call: Construct,
        olds: Vec<Rc<Tree>>,
        weight: u64,
    ) -> Option<Tree>
        requires allowed { IsAllowed call }
        requires olds { length olds.items ≡ length (old_numbers call) }
        requires weight { weight ≡ weight_of call (weighed (trees_of olds.items)) }
        ensures { let tree = Made origin call (trees_of olds.items) in MatchOption result (IsWithinReach tree → ⊥) (λ made. (made ≡ tree) × IsWithinReach tree) }
    {
        let Some(facts) = settle(origin, &call, olds.as_slice(), weight) else {
            return None;
        };
        Some(Tree {
            node: Node::Made(origin, call, olds),
            facts,
        })
    }

    /// The basic type that it is, for the types 1 to 25; else none. Its map is that one element at 0. Takes constant time.
    pub fn basic(&self) -> Option<Basic>
        ensures value { result ≡ basic_of self.now }
        ensures map { MatchOption result (IsSome (call_of self.now)) (λ basic. (type_map self.now ≡ Element basic (pos 0) ∷ []) × (weight self.now ≡ 1)) }
    {
        match &self.node {
            Node::Elementary(basic) => Some(*basic),
            Node::Made(_, _, _) => None,
        }
    }

    /// The call that made it; none for the types 1 to 25. Its map is what the call makes of the maps of its old types, as
    /// many as the call names, and the numbers of the call are allowed. Takes constant time.
    pub fn made(&self) -> Option<&Construct>
        ensures value { option_copied result ≡ call_of self.now }
        ensures made { MatchOption result (IsSome (basic_of self.now)) (λ call. IsMadeBy self.now call.now) }
        ensures makeable { IsMakeable self.now }
    {
        match &self.node {
            Node::Elementary(_) => None,
            Node::Made(_, call, _) => Some(call),
        }
    }

    /// Its `i`-th old type in the call's order, freed or not: one per block of a `Struct`, one of any other call; none
    /// exactly where there is no `i`-th. Takes constant time.
    pub fn old(&self, i: usize) -> Option<&Tree>
        ensures value { option_copied result ≡ old_at self.now i }
        ensures map { option_map type_map (option_copied result) ≡ slice_get (old_maps self.now) i }
        ensures weight { option_map as_old (option_copied result) ≡ slice_get (old_weights self.now) i }
        ensures lower { (t : TypeTree) → old_at self.now i ≡ Some t → height t < height self.now }
    {
        match &self.node {
            Node::Elementary(_) => None,
            Node::Made(_, _, olds) => match olds.get(i) {
                Some(old) => Some(old.as_ref()),
                None => None,
            },
        }
    }

    /// Whether a call of the program made it.
    pub fn is_derived(&self) -> bool
        ensures { IsTrue result ↔ IsDerived (Some self.now) }
    {
        match &self.node {
            Node::Elementary(_) => false,
            Node::Made(Origin::Predefined, _, _) => false,
            Node::Made(Origin::Derived, _, _) => true,
        }
    }

    /// What it knows of itself.
    pub(crate) fn facts(&self) -> Facts
        ensures value { result ≡ facts_of self.now }
        ensures makeable { IsMakeable self.now }
    {
        self.facts
    }

    /// Its size and its bounds. Takes constant time: they were computed when the type was made.
    pub fn bounds(&self) -> Bounds
        ensures value { result ≡ bounds_of (type_map self.now) }
        ensures size { result.size ≡ pos (size (type_map self.now)) }
        ensures extent { result.extent ≡ extent (type_map self.now) }
        ensures makeable { IsMakeable self.now }
    {
        self.facts.bounds
    }
}
