//! What a rank knows of its handles.

ghost use Rattle.std.specs.Prelude.{◌≡◌, ◌+◌, ◌++◌, ◌∷◌, [], ℕ, true, None, Some, is_some, ◌<◌, ◌^◌, List, Option, length, option_map, IfOk, IfErr, IfSome, OnOk, false};
ghost use Rattle.must_call.specs.declared.call.Call.{Call};
ghost use Rattle.must_rules.specs.Rank.{Rank};
ghost use Rattle.must_rules.specs.Making.{made_by};
ghost use Rattle.must_rules.specs.Limits.{path_limit, most_weight, handle_limit_at};
ghost use Rattle.must_rules.specs.Clear.{is_clear};
ghost use Rattle.must_rules.specs.Communicators.{derived_of};
ghost use Rattle.must_rules.specs.Known.{group_made};
ghost use Rattle.must_handle.specs.Changes.{IsNext};
ghost use Rattle.must_rules.specs.Facts.{members_of};
ghost use Rattle.must_items.specs.CollectiveItems.{commute_made};
ghost use Rattle.must_local.specs.Counted.{counted};
ghost use Rattle.must_local.specs.Objects.{HasMembers, operation_in};
ghost use Rattle.must_format.specs.declared.cause.Limit.{Limit};
ghost use Rattle.must_rules.specs.Starts.{Clearness};
ghost use Rattle.must_rules.specs.Limits.{type_limit_at};
ghost use Rattle.must_derived.specs.Numbers.{IsNext as IsNextType};
ghost use Rattle.must_derived.specs.Standing.{Stands as TypesStand, IsTypeLimit};
ghost use Rattle.must_local.specs.HandlesKnown.{name_told, named_as, Counts, TakesIn, IsLimitAt, full_path, parent_in, too_deep, made_too_deep, usable_comm, comm_made, known_comm, known_operation, known_made, facts_in, HandlesStand};

use crate::comm::Comm;
use crate::derived::{comm_named, derived_comm, is_collective, is_there};
use crate::fault::WalkFault;
use crate::groups::{copy_of, difference, excluded, included, intersection, union};
use crate::known::Known;
use crate::objects::Objects;
use must_args::View;
use must_base::NoMemory;
use must_begin::Named;
use must_call::{Body, Call, Class, Life, Object};
use must_derived::Datatypes;
use must_format::Limit;
use must_group::{Group, NameFault};
use must_handle::{Lives, made};
use must_items::Communicator;
use must_type::{Limit2, TypeFault};
use std::alloc::Global;

/// What the calls of a rank taken so far made of its handles.
#[derive(Drop)]
pub struct Handles {
    pub rank: u32,
    pub tag_ub: i32,
    pub lives: Lives,
    pub types: Datatypes,
    pub objects: Objects,
}

impl View for Handles {
    ghost use Rattle.must_handle.specs.Slots.{start_in};
    ghost use Rattle.std.specs.Prelude.{is_some};
    ghost use Rattle.must_derived.specs.Numbers.{number_of};
    ghost use Rattle.must_local.specs.HandlesKnown.{facts_in};

    ghost facts = { λ h. facts_in h };

    ghost sound = { λ h number. is_some (number_of h.types.numbers number) };

    ghost starts = { λ h number. start_in h.lives number };

    fn life(&self, class: Class, number: u32) -> Life {
        self.lives.state(class, number)
    }

    fn committed(&self, number: u32) -> bool {
        self.lives.committed(number)
    }

    fn comm_size(&self, number: u32) -> Option<u32> {
        let members = self.members(number)?;
        Some(members.ranks().len() as u32)
    }

    fn own_rank(&self, number: u32) -> Option<u32> {
        let comm = self.comm(number)?;
        comm.name().members().position(self.rank)
    }

    fn group(&self, number: u32) -> Option<&Group> {
        self.usable_group(number)
    }

    fn comm_group(&self, number: u32) -> Option<&Group> {
        self.members(number)
    }

    fn sound_type(&self, number: u32) -> bool {
        self.types.is_sound(number)
    }

    fn tag_ub(&self) -> i32 {
        self.tag_ub
    }

    fn start_of(&self, number: u32) -> Option<u32> {
        self.lives.start_of(number)
    }
}

/// The weights of a run's live datatypes may be so much together (docs/FORMAT.md, "Limits").
const MOST_WEIGHT: u64 = 0x400_0000;

/// What those of a rank may be, in a run of so many.
fn most_weight(size: u32) -> u64
    ensures { result ≡ most_weight size }
{
    if size == 0 {
        0
    } else {
        MOST_WEIGHT / u64::from(size)
    }
}

/// What stops a walk at call `k` where a type isn't made.
fn type_limit(k: u32, fault: TypeFault) -> WalkFault
    ensures { (reached : Option Limit) → IsTypeLimit reached fault → IsLimitAt k reached result }
{
    match fault {
        TypeFault::TooWide {
            limit: Limit2::Weight,
        } => WalkFault::TooWide {
            call: k,
            limit: Limit::TypeWeight,
        },
        TypeFault::TooWide {
            limit: Limit2::Reach,
        } => WalkFault::TooWide {
            call: k,
            limit: Limit::TypeReach,
        },
        TypeFault::NoMemory => WalkFault::NoMemory,
    }
}

/// What is known of the operation that a call makes.
fn operation_made(body: &Body) -> Known
    ensures { result ≡ known_operation (commute_made body.now) }
{
    match body {
        Body::Object(Object::OpCreate { commute, .. }) => Known::Operation(*commute),
        _ => Known::Nothing,
    }
}

impl Handles {
    /// What is known before the first call, at a rank of a run of so many.
    pub fn new(alloc: Global, rank: u32, size: u32, tag_ub: i32) -> Result<Handles, NoMemory>
        ensures stands { IfOk result (λ h. (r : Rank) → r.rank ≡ rank → r.size ≡ size → r.tag_ub ≡ tag_ub → HandlesStand r h []) }
        ensures told { IfOk result (λ h. (h.rank ≡ rank) × (h.tag_ub ≡ tag_ub)) }
    {
        let lives = Lives::new(alloc)?;
        let types = Datatypes::new(alloc, most_weight(size))?;
        let objects = Objects::new(alloc, rank, size)?;
        Ok(Handles {
            rank,
            tag_ub,
            lives,
            types,
            objects,
        })
    }

    /// A sound communicator that may be used.
    fn comm(&self, number: u32) -> Option<&Comm>
        ensures { option_map (λ c. c.now) result ≡ usable_comm self.now number }
    {
        if is_there(self.lives.state(Class::Comm, number)) {
            self.objects.comm(number)
        } else {
            None
        }
    }

    /// The name of a sound communicator that may be used.
    pub fn named(&self, number: u32) -> Option<Named<'_>>
        ensures { name_told result ≡ named_as number (usable_comm self.now number) }
    {
        let comm = self.comm(number)?;
        Some(Named {
            comm: number,
            name: comm.name(),
        })
    }

    /// The members of a sound communicator that may be used, where this rank is one.
    fn members(&self, number: u32) -> Option<&Group>
        ensures members { option_map (λ g. g.now) result ≡ option_map members_of ((facts_in self.now).comm number) }
        ensures few { IfSome result (λ g. length g.now < 2 ^ 32) }
    {
        let members = self.comm(number)?.name().members();
        members.position(self.rank)?;
        Some(members)
    }

    /// A sound group that may be used.
    fn usable_group(&self, number: u32) -> Option<&Group>
        ensures { option_map (λ g. g.now) result ≡ (facts_in self.now).group number }
    {
        if is_there(self.lives.state(Class::Group, number)) {
            self.objects.group(number)
        } else {
            None
        }
    }

    /// A sound communicator that may be used, where this rank is one of its members.
    pub fn communicator(&self, number: u32) -> Option<Communicator<'_>>
        ensures there { is_some result ≡ is_some ((facts_in self.now).comm number) }
        ensures told { IfSome result (λ on. (on.comm ≡ number) × (usable_comm self.now number ≡ Some (counted on.calls on.name.now))) }
    {
        let comm = self.comm(number)?;
        let name = comm.name();
        name.members().position(self.rank)?;
        Some(Communicator {
            comm: number,
            name,
            calls: comm.calls(),
        })
    }

    /// Whether a created operation commutes; none for one that MPI names.
    pub fn commute(&self, op: u32) -> Option<bool>
        ensures { result ≡ operation_in self.now.objects op }
    {
        self.objects.commute(op)
    }

    /// What is known of the communicator that call `k` makes.
    fn comm_made(&self, alloc: Global, k: u32, body: &Body) -> Result<Known, WalkFault>
        requires { HasMembers (derived_of body.now) }
        ensures known { IfOk result (λ known. known ≡ known_comm (comm_made self.now (derived_of body.now))) }
        ensures within { IfOk result (λ known. full_path (parent_in self.now (derived_of body.now)) ≡ false) }
        ensures over { IfErr result (IsLimitAt k (path_limit (full_path (parent_in self.now (derived_of body.now))))) }
    {
        let Some(made) = derived_comm(body) else {
            return Ok(Known::Nothing);
        };
        let Some(parent) = self.comm(made.parent) else {
            return Ok(Known::Nothing);
        };
        let members = Group::of(alloc, made.members)?;
        match parent
            .name()
            .child(alloc, parent.calls(), made.class, members)
        {
            Ok(name) => Ok(Known::Comm(Comm::new(name))),
            Err(NameFault::TooDeep) => Err(WalkFault::TooWide {
                call: k,
                limit: Limit::Path,
            }),
            Err(NameFault::NoMemory) => Err(WalkFault::NoMemory),
        }
    }

    /// The group that a clear call makes, where what it is made of is sound.
    fn group_made(&self, alloc: Global, body: &Body) -> Result<Option<Group>, NoMemory>
        requires { is_clear (facts_in self.now) body.now ≡ true }
        ensures { IfOk result (λ made. made ≡ group_made (facts_in self.now) body.now) }
    {
        let Body::Object(object) = body else {
            return Ok(None);
        };
        match object {
            Object::CommGroup { comm, .. } => copy_of(alloc, self.members(*comm)),
            Object::GroupIncl { group, ranks, .. } => {
                included(alloc, self.usable_group(*group), ranks.items())
            }
            Object::GroupExcl { group, ranks, .. } => {
                excluded(alloc, self.usable_group(*group), ranks.items())
            }
            Object::GroupUnion { first, second, .. } => {
                union(alloc, self.usable_group(*first), self.usable_group(*second))
            }
            Object::GroupIntersection { first, second, .. } => {
                intersection(alloc, self.usable_group(*first), self.usable_group(*second))
            }
            Object::GroupDifference { first, second, .. } => {
                difference(alloc, self.usable_group(*first), self.usable_group(*second))
            }
            _ => Ok(None),
        }
    }

    /// What is known of the handle of this class that call `k` makes; `clear` says whether the call is.
    fn known_made(
        &self,
        alloc: Global,
        k: u32,
        class: Class,
        call: &Call,
        clear: bool,
    ) -> Result<Known, WalkFault>
        requires members { HasMembers (derived_of call.now.body) }
        requires clear { clear ≡ is_clear (facts_in self.now) call.now.body }
        ensures known { IfOk result (λ known. known ≡ known_made self.now class clear call.now.body) }
        ensures within { IfOk result (λ known. too_deep self.now class call.now.body ≡ false) }
        ensures over { IfErr result (IsLimitAt k (path_limit (too_deep self.now class call.now.body))) }
    {
        match class {
            Class::Comm => self.comm_made(alloc, k, &call.body),
            Class::Group => {
                if !clear {
                    return Ok(Known::Nothing);
                }
                match self.group_made(alloc, &call.body)? {
                    Some(group) => Ok(Known::Group(group)),
                    None => Ok(Known::Nothing),
                }
            }
            Class::Operation => Ok(operation_made(&call.body)),
            _ => Ok(Known::Nothing),
        }
    }

    /// Counts a collective call on a communicator that may be used.
    fn count(&mut self, body: &Body) -> Result<(), NoMemory>
        ensures counts { OnOk result (Counts self.old body.now self.old.objects self.new.objects) }
        ensures lives { (self.new.lives ≡ self.old.lives) × (self.new.types ≡ self.old.types) }
        ensures told { (self.new.rank ≡ self.old.rank) × (self.new.tag_ub ≡ self.old.tag_ub) }
    {
        if !is_collective(body) {
            return Ok(());
        }
        let Some(comm) = comm_named(body) else {
            return Ok(());
        };
        if is_there(self.lives.state(Class::Comm, comm)) {
            self.objects.count(comm)?;
        }
        Ok(())
    }

    /// Takes call `k` into the table of what is known.
    fn take_in(&mut self, alloc: Global, k: u32, call: &Call, clear: bool) -> Result<(), WalkFault>
        requires members { HasMembers (derived_of call.now.body) }
        requires clear { clear ≡ is_clear (facts_in self.old) call.now.body }
        ensures takes { OnOk result (TakesIn self.old clear call.now self.new.objects) }
        ensures within { OnOk result (made_too_deep self.old (made_by call.now) call.now.body ≡ false) }
        ensures over { IfErr result (IsLimitAt k (path_limit (made_too_deep self.old (made_by call.now) call.now.body))) }
        ensures lives { (self.new.lives ≡ self.old.lives) × (self.new.types ≡ self.old.types) }
        ensures told { (self.new.rank ≡ self.old.rank) × (self.new.tag_ub ≡ self.old.tag_ub) }
    {
        match made(call) {
            None => {
                self.count(&call.body)?;
                Ok(())
            }
            Some((class, _number)) => {
                let known = self.known_made(alloc, k, class, call, clear)?;
                self.count(&call.body)?;
                self.objects.push(known)?;
                Ok(())
            }
        }
    }

    /// Takes call `k` into the datatypes.
    fn take_type(
        &mut self,
        alloc: Global,
        k: u32,
        call: &Call,
        clear: bool,
    ) -> Result<(), WalkFault>
        ensures limit { OnOk result (self.new.types.table.weight_limit ≡ self.old.types.table.weight_limit) }
        ensures stands { OnOk result ((is_clear : Clearness) (calls : List Call) → IsNextType self.old.types.numbers call.now → clear ≡ is_clear calls call.now → TypesStand is_clear self.old.types calls → TypesStand is_clear self.new.types (calls ++ call.now ∷ [])) }
        ensures within { OnOk result ((is_clear : Clearness) (calls : List Call) → clear ≡ is_clear calls call.now → TypesStand is_clear self.old.types calls → type_limit_at self.old.types.table.weight_limit is_clear calls call.now ≡ None) }
        ensures over { IfErr result (λ fault. (is_clear : Clearness) (calls : List Call) → clear ≡ is_clear calls call.now → TypesStand is_clear self.old.types calls → IsLimitAt k (type_limit_at self.old.types.table.weight_limit is_clear calls call.now) fault) }
        ensures others { (self.new.lives ≡ self.old.lives) × (self.new.objects ≡ self.old.objects) × (self.new.rank ≡ self.old.rank) × (self.new.tag_ub ≡ self.old.tag_ub) }
    {
        match self.types.take(alloc, call, clear) {
            Ok(()) => Ok(()),
            Err(fault) => Err(type_limit(k, fault)),
        }
    }

    /// Takes call `k`, the next; `clear` says whether it is. The handle that it makes, if any, has the next number. `TooWide`
    /// comes exactly where the call reaches a limit (docs/FORMAT.md); what is known isn't to be asked any more then.
    pub fn take(&mut self, alloc: Global, k: u32, call: &Call, clear: bool) -> Result<(), WalkFault>
        requires next { IsNext self.old.lives call.now }
        requires members { HasMembers (derived_of call.now.body) }
        requires clear { clear ≡ is_clear (facts_in self.old) call.now.body }
        ensures stands { OnOk result ((r : Rank) (calls : List Call) → length calls ≡ k → HandlesStand r self.old calls → HandlesStand r self.new (calls ++ call.now ∷ [])) }
        ensures told { OnOk result ((self.new.rank ≡ self.old.rank) × (self.new.tag_ub ≡ self.old.tag_ub)) }
        ensures within { OnOk result ((r : Rank) (calls : List Call) → HandlesStand r self.old calls → handle_limit_at r calls call.now ≡ None) }
        ensures over { IfErr result (λ fault. (r : Rank) (calls : List Call) → HandlesStand r self.old calls → IsLimitAt k (handle_limit_at r calls call.now) fault) }
    {
        self.take_in(alloc, k, call, clear)?;
        self.take_type(alloc, k, call, clear)?;
        self.lives.apply(k, call, clear)?;
        Ok(())
    }
}
