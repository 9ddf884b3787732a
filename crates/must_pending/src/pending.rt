//! The operations that are pending.

ghost use Rattle.std.specs.Prelude.{◌≡◌, ◌+◌, ◌<◌, ◌^◌, [], ◌∷◌, ◌++◌, OnOk, OnErr, IfOk, IsTrue, length};
ghost use Rattle.must_pending.specs.Clashes.{IsFirst, without, weight_of};
ghost use Rattle.must_pending.specs.Groups.{joined};

use crate::access::Access;
use crate::first::earlier;
use crate::group::Group;
use crate::held::Held;
use must_base::NoMemory;
use must_span::Spans;
use std::alloc::Global;
use std::marker::Model;

/// The operations that are pending, in the order of their starts. Contracts see the list.
#[derive(Drop)]
pub struct Pending {
    alloc: Global,
    groups: Vec<Group>,
    weight: u64,
}

impl Model for Pending {
    ghost use Rattle.std.specs.Prelude.{◌≡◌, List};
    ghost use Rattle.must_pending.specs.declared.held.Held.{Held};
    ghost use Rattle.must_pending.specs.Clashes.{weight_of};
    ghost use Rattle.must_pending.specs.Groups.{joined};

    ghost Value = { List Held };

    ghost view = { λ p. joined p.groups.items };

    ghost invariant = { λ p. p.weight ≡ weight_of (joined p.groups.items) };
}

/// How many operations the first groups have, however few there are.
const FEWEST: usize = 64;

/// Whether the last group takes one operation more.
fn has_room(groups: &[Group]) -> bool
    ensures { IsTrue result → 0 < length groups.now }
{
    if groups.is_empty() {
        return false;
    }
    groups[groups.len() - 1].len() < groups.len().max(FEWEST)
}

/// Puts an operation behind the others. After an error nothing has changed.
fn push_held(alloc: Global, groups: &mut Vec<Group>, held: Held) -> Result<(), NoMemory>
    ensures ok { OnOk result (joined groups.new.items ≡ joined groups.old.items ++ held ∷ []) }
    ensures err { OnErr result (joined groups.new.items ≡ joined groups.old.items) }
{
    if has_room(groups.as_slice()) {
        let last = groups.len() - 1;
        groups[last].push(held)?;
        return Ok(());
    }
    groups.push(Group::new(alloc, held)?)?;
    Ok(())
}

/// Lets the operations of a request go, and answers their weight.
fn finish_in(groups: &mut Vec<Group>, request: u32) -> u64
    requires { weight_of (joined groups.old.items) < 2 ^ 64 }
    ensures left { joined groups.new.items ≡ without request (joined groups.old.items) }
    ensures weight { result + weight_of (joined groups.new.items) ≡ weight_of (joined groups.old.items) }
{
    let mut done = 0;
    for i in 0..groups.len() {
        done += groups[i].finish(request);
    }
    done
}

/// Lets the groups go that have no operation.
fn drop_empty(groups: &mut Vec<Group>)
    ensures { joined groups.new.items ≡ joined groups.old.items }
{
    groups.retain(|group| group.len() != 0);
}

/// The first clash with the operations of all groups.
fn first_clash_in(groups: &[Group], spans: &Spans, access: Access) -> Option<(u32, i128)>
    ensures { IsFirst (joined groups.now) spans.now access result }
{
    let mut first = None;
    for group in groups {
        first = earlier(first, group.clash(spans, access));
    }
    first
}

impl Pending {
    /// No operations. Takes no memory.
    pub fn new(alloc: Global) -> Result<Pending, NoMemory>
        ensures { IfOk result (λ pending. pending ≡ []) }
    {
        Ok(Pending {
            alloc,
            groups: Vec::new(alloc),
            weight: 0,
        })
    }

    /// Holds an operation more: that of a call, of a request, which accesses these addresses. After an error nothing has
    /// changed.
    pub fn start(
        &mut self,
        call: u32,
        request: u32,
        access: Access,
        spans: Spans,
        weight: u64,
    ) -> Result<(), NoMemory>
        requires { weight_of self.old + weight < 2 ^ 64 }
        ensures ok { OnOk result (self.new ≡ self.old ++ record { call = call; request = request; access = access; spans = spans; weight = weight } ∷ []) }
        ensures err { OnErr result (self.new ≡ self.old) }
    {
        let held = Held {
            call,
            request,
            access,
            spans,
            weight,
        };
        push_held(self.alloc, &mut self.groups, held)?;
        self.weight += weight;
        Ok(())
    }

    /// Lets the operations of a request go; does nothing where there is none. Takes no memory.
    pub fn finish(&mut self, request: u32)
        ensures { self.new ≡ without request self.old }
    {
        self.weight -= finish_in(&mut self.groups, request);
        drop_empty(&mut self.groups);
    }

    /// The first clash with the operations that are held: the earliest call with one that clashes, and the least address
    /// that is shared with one of that call. Two clash where they share an address and one of them writes. Takes no
    /// memory.
    pub fn clash(&self, spans: &Spans, access: Access) -> Option<(u32, i128)>
        ensures { IsFirst self.now spans.now access result }
    {
        first_clash_in(self.groups.as_slice(), spans, access)
    }

    /// The sum of the weights that are held. Takes constant time.
    pub fn weight(&self) -> u64
        ensures { result ≡ weight_of self.now }
    {
        self.weight
    }
}
