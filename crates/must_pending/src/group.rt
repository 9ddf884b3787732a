//! Groups of operations.

ghost use Rattle.std.specs.Prelude.{◌≡◌, ◌+◌, ◌<◌, ◌≤◌, ◌^◌, ◌⊎◌, ◌↔◌, ℤ, [], ◌∷◌, ◌++◌, length, OnOk, OnErr, IfOk, MatchOption, IsTrue};
ghost use Rattle.std.specs.Prelude.{false};
ghost use Rattle.must_pending.specs.declared.access.Access.TheVariants.{Reads};
ghost use Rattle.must_pending.specs.declared.held.Held.{Held};
ghost use Rattle.must_span.specs.Ranges.{Covers};
ghost use Rattle.must_pending.specs.Clashes.{Disagree, IsFirst, without, weight_of};
ghost use Rattle.must_pending.specs.Groups.{AreWithin, Surrounds, SurroundAll};

use crate::access::Access;
use crate::first::earlier;
use crate::held::Held;
use crate::placed::{Placed, ends};
use must_base::NoMemory;
use must_span::Spans;
use std::alloc::Global;
use std::marker::Model;

/// What some operations have in common: their addresses lie from `low` to below `high`, one of them writes or none does,
/// and their requests lie from `least` to `greatest`.
#[derive(Clone, Copy)]
pub(crate) struct Common {
    pub low: i128,
    pub high: i128,
    pub writes: bool,
    pub least: u32,
    pub greatest: u32,
}

/// Operations in the order of their starts.
#[derive(Drop)]
pub(crate) struct Group {
    operations: Vec<Placed>,
    common: Common,
}

impl Model for Group {
    ghost use Rattle.std.specs.Prelude.{List};
    ghost use Rattle.must_pending.specs.declared.held.Held.{Held};
    ghost use Rattle.must_pending.specs.Groups.{SurroundAll};

    ghost Value = { List Held };

    ghost view = { λ g. g.operations.items };

    ghost invariant = { λ g. SurroundAll g.common g.operations.items };
}

/// Whether the access may write.
fn may_write(access: Access) -> bool
    ensures { result ≡ false → access ≡ Reads }
{
    match access {
        Access::Reads => false,
        Access::Writes => true,
    }
}

/// What one operation has.
fn common_of(held: &Held) -> Common
    ensures { Surrounds result held.now }
{
    let (low, high) = ends(held.spans.ranges());
    Common {
        low,
        high,
        writes: may_write(held.access),
        least: held.request,
        greatest: held.request,
    }
}

/// What the operations of both have in common.
fn wider(first: Common, second: Common) -> Common
    ensures first { (h : Held) → Surrounds first h → Surrounds result h }
    ensures second { (h : Held) → Surrounds second h → Surrounds result h }
{
    Common {
        low: first.low.min(second.low),
        high: first.high.max(second.high),
        writes: first.writes | second.writes,
        least: first.least.min(second.least),
        greatest: first.greatest.max(second.greatest),
    }
}

/// Whether an operation that has this may clash with an access of these addresses, which lie from `low` to below `high`.
fn may_clash(common: Common, spans: &Spans, access: Access, low: i128, high: i128) -> bool
    requires { AreWithin low high spans.now }
    ensures { (h : Held) (x : ℤ) → Surrounds common h → Disagree h.access access → Covers h.spans x → Covers spans.now x → IsTrue result }
{
    if !common.writes && !may_write(access) {
        return false;
    }
    if high <= common.low {
        return false;
    }
    if common.high <= low {
        return false;
    }
    true
}

/// The weight of the operations of a request.
fn request_weight(operations: &[Placed], request: u32) -> u64
    requires { weight_of operations.now < 2 ^ 64 }
    ensures { result + weight_of (without request operations.now) ≡ weight_of operations.now }
{
    let mut done = 0;
    for placed in operations {
        if placed.request() == request {
            done += placed.weight();
        }
    }
    done
}

/// Lets the operations of a request go.
fn drop_request(operations: &mut Vec<Placed>, request: u32)
    ensures { operations.new.items ≡ without request operations.old.items }
{
    operations.retain(|placed| placed.request() != request);
}

/// The first clash with the operations of an access of these addresses, which lie from `low` to below `high`.
fn first_clash(
    operations: &[Placed],
    spans: &Spans,
    access: Access,
    low: i128,
    high: i128,
) -> Option<(u32, i128)>
    requires { AreWithin low high spans.now }
    ensures { IsFirst operations.now spans.now access result }
{
    let mut first = None;
    for placed in operations {
        first = earlier(first, placed.clash(spans, access, low, high));
    }
    first
}

impl Group {
    /// A group of one operation.
    pub(crate) fn new(alloc: Global, held: Held) -> Result<Group, NoMemory>
        ensures { IfOk result (λ group. group ≡ held ∷ []) }
    {
        let common = common_of(&held);
        let mut operations = Vec::new(alloc);
        operations.push(Placed::new(held))?;
        Ok(Group { operations, common })
    }

    /// How many operations there are.
    pub(crate) fn len(&self) -> usize
        ensures { result ≡ length self.now }
    {
        self.operations.len()
    }

    /// One operation more. After an error nothing has changed.
    pub(crate) fn push(&mut self, held: Held) -> Result<(), NoMemory>
        ensures ok { OnOk result (self.new ≡ self.old ++ held ∷ []) }
        ensures err { OnErr result (self.new ≡ self.old) }
    {
        let common = wider(self.common, common_of(&held));
        self.operations.push(Placed::new(held))?;
        self.common = common;
        Ok(())
    }

    /// Lets the operations of a request go, and answers their weight.
    pub(crate) fn finish(&mut self, request: u32) -> u64
        requires { weight_of self.old < 2 ^ 64 }
        ensures left { self.new ≡ without request self.old }
        ensures weight { result + weight_of (without request self.old) ≡ weight_of self.old }
    {
        if request < self.common.least {
            return 0;
        }
        if self.common.greatest < request {
            return 0;
        }
        let weight = request_weight(self.operations.as_slice(), request);
        drop_request(&mut self.operations, request);
        weight
    }

    /// The first clash with the operations.
    pub(crate) fn clash(&self, spans: &Spans, access: Access) -> Option<(u32, i128)>
        ensures { IsFirst self.now spans.now access result }
    {
        let (low, high) = ends(spans.ranges());
        if !may_clash(self.common, spans, access, low, high) {
            return None;
        }
        first_clash(self.operations.as_slice(), spans, access, low, high)
    }
}
