//! The datatypes of a rank.

ghost use Rattle.std.specs.Prelude.{◌≡◌, ◌++◌, ◌∷◌, [], List, IfOk, IfErr, OnOk, None, is_some};
ghost use Rattle.must_call.specs.declared.call.Call.{Call};
ghost use Rattle.must_rules.specs.Starts.{Clearness};
ghost use Rattle.must_rules.specs.Types.{sound_type};
ghost use Rattle.must_rules.specs.Limits.{type_limit_at};
ghost use Rattle.must_derived.specs.Numbers.{number_of, freed_type, IsNext};
ghost use Rattle.must_derived.specs.Steps.{Makes, MakesOf, IsRefused, IsRefusedOf, FreesAt, number_freed};
ghost use Rattle.must_derived.specs.Standing.{Stands, IsTypeLimit};

use crate::numbers::Numbers;
use must_base::NoMemory;
use must_call::{Body, Call, Class, Derive};
use must_handle::made;
use must_type::{TypeFault, TypeHandles, TypeNo, TypeTable, construct_of};
use std::alloc::Global;

/// The datatypes that the calls of a rank made so far.
#[derive(Drop)]
pub struct Datatypes {
    table: TypeTable,
    numbers: Numbers,
}

/// The type that a call frees.
fn freed_type(call: &Call) -> Option<u32>
    ensures { result ≡ freed_type call.now }
{
    if !call.returned {
        return None;
    }
    match &call.body {
        Body::Derive(Derive::TypeFree { dtype }) => Some(*dtype),
        _ => None,
    }
}

impl Datatypes {
    /// Those before the first call. The weights of live derived types may be `most` together.
    pub fn new(alloc: Global, most: u64) -> Result<Datatypes, NoMemory>
        ensures stands { IfOk result (λ types. (is_clear : Clearness) → Stands is_clear types []) }
        ensures limit { IfOk result (λ types. types.table.weight_limit ≡ most) }
    {
        let table = TypeTable::new(alloc, most)?;
        Ok(Datatypes {
            table,
            numbers: Numbers::new(alloc),
        })
    }

    /// The type that a handle stands for, in `table`; none where it stands for none. A freed type isn't in the table any more.
    pub fn type_no(&self, handle: u32) -> Option<TypeNo>
        ensures { result ≡ number_of self.now.numbers handle }
    {
        self.numbers.type_of(handle)
    }

    /// Whether a handle stands for a type, freed or not.
    pub fn is_sound(&self, handle: u32) -> bool
        ensures number { result ≡ is_some (number_of self.now.numbers handle) }
        ensures stands { (is_clear : Clearness) (calls : List Call) → Stands is_clear self.now calls → result ≡ sound_type is_clear calls handle }
    {
        self.numbers.type_of(handle).is_some()
    }

    /// The types that are live.
    pub fn table(&self) -> &TypeTable
        ensures { result.now ≡ self.now.table }
    {
        &self.table
    }

    /// Makes what a clear call makes.
    fn make(&mut self, alloc: Global, body: &Body) -> Result<Option<TypeNo>, TypeFault>
        ensures makes { IfOk result (λ no. Makes self.old.table self.old.numbers body.now no self.new.table) }
        ensures limit { OnOk result (self.new.table.weight_limit ≡ self.old.table.weight_limit) }
        ensures over { IfErr result (IsRefused self.old.table self.old.numbers body.now) }
        ensures numbers { self.new.numbers ≡ self.old.numbers }
    {
        let Body::Derive(call) = body else {
            return Ok(None);
        };
        let Some(construct) = construct_of(alloc, &self.numbers, call)? else {
            return Ok(None);
        };
        if !self.table.can_make(&construct) {
            return Err(TypeFault::NoMemory);
        }
        let no = self.table.make(alloc, &construct)?;
        Ok(Some(no))
    }

    /// Makes what a call makes that makes a handle of this class; `clear` says whether the call is.
    fn make_of(
        &mut self,
        alloc: Global,
        class: Class,
        call: &Call,
        clear: bool,
    ) -> Result<Option<TypeNo>, TypeFault>
        ensures makes { IfOk result (λ no. MakesOf class clear self.old.table self.old.numbers call.now.body no self.new.table) }
        ensures limit { OnOk result (self.new.table.weight_limit ≡ self.old.table.weight_limit) }
        ensures over { IfErr result (IsRefusedOf class clear self.old.table self.old.numbers call.now.body) }
        ensures numbers { self.new.numbers ≡ self.old.numbers }
    {
        match class {
            Class::Datatype => {
                if clear {
                    self.make(alloc, &call.body)
                } else {
                    Ok(None)
                }
            }
            _ => Ok(None),
        }
    }

    /// Frees what a call frees.
    fn free(&mut self, call: &Call)
        ensures frees { FreesAt self.old.table (number_freed self.old.numbers (freed_type call.now)) self.new.table }
        ensures limit { self.new.table.weight_limit ≡ self.old.table.weight_limit }
        ensures numbers { self.new.numbers ≡ self.old.numbers }
    {
        let Some(handle) = freed_type(call) else {
            return;
        };
        let Some(no) = self.numbers.type_of(handle) else {
            return;
        };
        if self.table.is_derived(no) {
            self.table.free(no);
        }
    }

    /// Takes the next call; `clear` says whether it is. The handle that it makes, if any, is to have the next number. `TooWide` comes
    /// exactly where the type that it makes reaches a limit; the types aren't to be used any more then.
    pub fn take(&mut self, alloc: Global, call: &Call, clear: bool) -> Result<(), TypeFault>
        ensures limit { OnOk result (self.new.table.weight_limit ≡ self.old.table.weight_limit) }
        ensures stands { OnOk result ((is_clear : Clearness) (calls : List Call) → IsNext self.old.numbers call.now → clear ≡ is_clear calls call.now → Stands is_clear self.old calls → Stands is_clear self.new (calls ++ call.now ∷ [])) }
        ensures within { OnOk result ((is_clear : Clearness) (calls : List Call) → clear ≡ is_clear calls call.now → Stands is_clear self.old calls → type_limit_at self.old.table.weight_limit is_clear calls call.now ≡ None) }
        ensures over { IfErr result (λ fault. (is_clear : Clearness) (calls : List Call) → clear ≡ is_clear calls call.now → Stands is_clear self.old calls → IsTypeLimit (type_limit_at self.old.table.weight_limit is_clear calls call.now) fault) }
    {
        match made(call) {
            None => {
                self.free(call);
                Ok(())
            }
            Some((class, _number)) => {
                let no = self.make_of(alloc, class, call, clear)?;
                self.numbers.push(no)?;
                Ok(())
            }
        }
    }
}
