//! Names of communicators.

ghost use Rattle.std.specs.Prelude.{◌≡◌, ◌↔◌, ◌++◌, ◌∷◌, [], ◌≤◌, IfOk, Err, length, refl};
ghost use Rattle.std.specs.Ordering.{as_partial_cmp, eq_by_cmp};
ghost use Rattle.std.specs.declared.cmp.Ordering.TheVariants.{Equal};
ghost use Rattle.must_group.specs.Names.{child_name, name_cmp};
ghost use Rattle.must_group.specs.NameOrder.{name_total};
ghost use Rattle.std.specs.Cmp.{partial_equiv_from_equiv, partial_order_from_own_ties, partial_order_from_total};
ghost use Rattle.std.proofs.lemmas.Cmp.{eq_by_cmp_equiv};

use crate::fault::NameFault;
use crate::group::Group;
use must_base::NoMemory;
use std::alloc::Global;
use std::cmp::Ordering;
use std::marker::Model;
use std::sync::Arc;

/// The most steps of a path.
const LONGEST_PATH: usize = 32;

/// One step from a communicator to one that a collective call on it made.
#[derive(Clone, Copy, PartialEq, Eq, PartialOrd, Ord)]
pub struct Step {
    /// The number of the making call among the collectives of the communicator.
    pub number: u32,
    /// Tells apart the communicators of one call: 0 for a duplicate, the color of a split, the first member of a created one.
    pub class: i32,
}

/// The name of a communicator, by which its calls at all ranks are told to be on one communicator.
///
/// A name is a root, a path and the members. The root is 0 for `MPI_COMM_WORLD` and 1 for `MPI_COMM_SELF`. The path has a step
/// for each collective call on the way from the root. Path and members are shared by all copies.
///
/// Names are ordered by root, then path, then members. Of two lists the first difference decides, and a proper prefix comes
/// first. Steps are ordered by number, then class. Two names compare as equal exactly where they are equal, so a name can be the
/// key of an ordered map.
#[derive(Drop)]
pub struct CommName {
    root: u8,
    path: Arc<Vec<Step>>,
    members: Arc<Group>,
}

impl Model for CommName {
    ghost use Rattle.std.specs.Prelude.{◌≤◌, length};
    ghost use Rattle.must_group.specs.Names.{Name};

    ghost Value = { Name };

    ghost view = { λ n. record { root = n.root; path = n.path.value.items; members = n.members.value } };

    ghost invariant = { λ n. length n.path.value.items ≤ 32 };
}

impl CommName {
    /// The name of a root, which has an empty path.
    pub fn start(alloc: Global, root: u8, members: Group) -> Result<CommName, NoMemory>
        ensures { IfOk result (λ name. name ≡ record { root = root; path = []; members = members }) }
    {
        named(alloc, root, Vec::new(alloc), members)
    }

    /// An equal name, which shares path and members, so it takes no memory. `NoMemory` comes only where there are too many copies
    /// to count.
    pub fn copy(&self) -> Result<CommName, NoMemory>
        ensures { IfOk result (λ name. name ≡ self.now) }
    {
        Ok(CommName {
            root: self.root,
            path: Arc::try_clone(&self.path)?,
            members: Arc::try_clone(&self.members)?,
        })
    }

    /// The members as they were recorded.
    pub fn members(&self) -> &Group
        ensures { result.now ≡ self.now.members }
    {
        &self.members
    }

    /// The name of a communicator that a collective call on this one made, with this step at the end of the path.
    ///
    /// `TooDeep` comes exactly where the path has 32 steps already.
    pub fn child(
        &self,
        alloc: Global,
        number: u32,
        class: i32,
        members: Group,
    ) -> Result<CommName, NameFault>
        ensures ok { IfOk result (λ name. name ≡ child_name self.now number class members) }
        ensures deep { (result ≡ Err NameFault.TooDeep) ↔ (length self.now.path ≡ 32) }
        ensures bounded { length self.now.path ≤ 32 }
    {
        if self.path.len() >= LONGEST_PATH {
            return Err(NameFault::TooDeep);
        }
        let path = longer(alloc, &self.path, Step { number, class })?;
        Ok(named(alloc, self.root, path, members)?)
    }
}

/// The steps, and one more at the end.
fn longer(alloc: Global, path: &[Step], step: Step) -> Result<Vec<Step>, NoMemory>
    ensures { IfOk result (λ v. v.items ≡ path.now ++ step ∷ []) }
{
    let mut longer = path.to_vec(alloc)?;
    longer.push(step)?;
    Ok(longer)
}

/// The name with these parts.
fn named(alloc: Global, root: u8, path: Vec<Step>, members: Group) -> Result<CommName, NoMemory>
    requires { length path.items ≤ 32 }
    ensures { IfOk result (λ name. name ≡ record { root = root; path = path.items; members = members }) }
{
    let path = Arc::new(alloc, path)?;
    let members = Arc::new(alloc, members)?;
    Ok(CommName {
        root,
        path,
        members,
    })
}

/// By root, then path, then members.
fn compare(name: &CommName, other: &CommName) -> Ordering
    ensures { result ≡ name_cmp name.now other.now }
{
    let roots = name.root.cmp(&other.root);
    roots
        .then_with(|| name.path.as_slice().cmp(other.path.as_slice()))
        .then_with(|| name.members.ranks().cmp(other.members.ranks()))
}

impl PartialEq for CommName {
    ghost eq = { eq_by_cmp name_cmp };

    ghost laws = { partial_equiv_from_equiv (eq_by_cmp_equiv name_total) };

    fn eq(&self, other: &CommName) -> bool {
        self.cmp(other).is_eq()
    }
}

impl Eq for CommName {
    ghost laws = { eq_by_cmp_equiv name_total };
}

impl PartialOrd for CommName {
    ghost partial_cmp = { as_partial_cmp name_cmp };

    ghost laws = { partial_order_from_own_ties (partial_order_from_total name_total) (λ x y. refl) };

    fn partial_cmp(&self, other: &CommName) -> Option<Ordering> {
        Some(self.cmp(other))
    }
}

impl Ord for CommName {
    ghost cmp = { name_cmp };

    ghost total = { name_total };

    ghost matches_partial_cmp = { λ x y. refl };

    ghost matches_eq = { λ x y. refl };

    fn cmp(&self, other: &CommName) -> Ordering
        ensures order { result ≡ name_cmp self.now other.now }
        ensures equal { (result ≡ Equal) ↔ (self.now ≡ other.now) }
    {
        compare(self, other)
    }
}
