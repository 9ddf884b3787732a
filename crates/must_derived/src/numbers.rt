//! Which handles stand for which types of a table.

ghost use Rattle.std.specs.Prelude.{◌≡◌, ◌++◌, ◌∷◌, [], length, OnOk};
ghost use Rattle.must_derived.specs.Numbers.{number_of};

use must_base::NoMemory;
use must_call::FIRST_MADE;
use must_type::{TypeHandles, TypeNo};
use std::alloc::Global;
use std::marker::Model;

/// The datatypes that MPI names have the numbers from 1 to this one, in a table as among handles.
const LAST_TYPE: u32 = 30;

/// The types of the handles that calls made, in order of number; none where a handle stands for none.
#[derive(Drop)]
pub struct Numbers {
    made: Vec<Option<TypeNo>>,
}

impl Model for Numbers {
    ghost use Rattle.std.specs.Prelude.{List, Option};
    ghost use Rattle.must_type.specs.declared.construct.TypeNo.{TypeNo};

    ghost Value = { List (Option TypeNo) };

    ghost view = { λ n. n.made.items };
}

impl TypeHandles for Numbers {
    ghost use Rattle.must_derived.specs.Numbers.{number_of};

    ghost types = { λ n handle. number_of n handle };

    #[tactic(auto, unfolding(must_rules::specs::Lives::is_predefined))]
    fn type_of(&self, handle: u32) -> Option<TypeNo> {
        if handle >= 1 && handle <= LAST_TYPE {
            return Some(TypeNo { number: handle });
        }
        if handle < FIRST_MADE {
            return None;
        }
        match self.made.get((handle - FIRST_MADE) as usize) {
            Some(no) => *no,
            None => None,
        }
    }
}

impl Numbers {
    /// Those of no made handle.
    pub fn new(alloc: Global) -> Numbers
        ensures { result ≡ [] }
    {
        Numbers {
            made: Vec::new(alloc),
        }
    }

    /// One more handle, with the next number.
    pub fn push(&mut self, no: Option<TypeNo>) -> Result<(), NoMemory>
        ensures { OnOk result (self.new ≡ self.old ++ no ∷ []) }
    {
        self.made.push(no)?;
        Ok(())
    }
}
