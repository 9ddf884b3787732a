//! Lists in needs, which contracts see as lists.

ghost use Rattle.std.specs.Prelude.{◌≡◌, IfOk};

use must_base::NoMemory;
use must_call::Place;
use std::alloc::Global;
use std::marker::Model;
use std::sync::Arc;

/// Who holds the places of an alternative.
#[derive(Drop)]
enum Held {
    Own(Vec<Place>),
    Shared(Arc<Vec<Place>>),
}

/// The places of one alternative, all of which a call waits for.
#[derive(Drop)]
pub struct Places {
    held: Held,
}

impl Model for Places {
    ghost use Rattle.std.specs.Prelude.{List};
    ghost use Rattle.must_call.specs.declared.place.Place.{Place};
    ghost use Rattle.must_wait.specs.Held.{held_places};

    ghost Value = { List Place };

    ghost view = { λ l. held_places l.held };
}

impl Places {
    /// The list of these places. It takes no memory.
    pub fn from_vec(items: Vec<Place>) -> Self
        ensures { result ≡ items.items }
    {
        Places {
            held: Held::Own(items),
        }
    }

    /// Lends the places.
    pub fn items(&self) -> &[Place]
        ensures { result.now ≡ self.now }
    {
        match &self.held {
            Held::Own(items) => items.as_slice(),
            Held::Shared(items) => items.as_slice(),
        }
    }
}

/// A list of places that alternatives share.
#[derive(Drop)]
pub(crate) struct SharedList {
    items: Arc<Vec<Place>>,
}

impl Model for SharedList {
    ghost use Rattle.std.specs.Prelude.{List};
    ghost use Rattle.must_call.specs.declared.place.Place.{Place};

    ghost Value = { List Place };

    ghost view = { λ l. l.items.value.items };
}

impl SharedList {
    /// The list of these places, to share.
    pub(crate) fn of(alloc: Global, places: Places) -> Result<SharedList, NoMemory>
        ensures { IfOk result (λ list. list ≡ places) }
    {
        let Places { held } = places;
        match held {
            Held::Own(items) => Ok(SharedList {
                items: Arc::new(alloc, items)?,
            }),
            Held::Shared(items) => Ok(SharedList { items }),
        }
    }

    /// Lends the places.
    pub(crate) fn items(&self) -> &[Place]
        ensures { result.now ≡ self.now }
    {
        self.items.as_slice()
    }

    /// An alternative that shares the list. `NoMemory` comes only where there are too many of them to count.
    pub(crate) fn places(&self) -> Result<Places, NoMemory>
        ensures { IfOk result (λ places. places ≡ self.now) }
    {
        Ok(Places {
            held: Held::Shared(Arc::try_clone(&self.items)?),
        })
    }
}

/// The alternatives of a call, one of which it waits for.
#[derive(Drop)]
pub struct Needs {
    items: Vec<Places>,
}

impl Model for Needs {
    ghost use Rattle.std.specs.Prelude.{List};
    ghost use Rattle.must_call.specs.declared.place.Place.{Place};

    ghost Value = { List (List Place) };

    ghost view = { λ l. l.items.items };
}

impl Needs {
    /// The list of these alternatives. It takes no memory.
    pub fn from_vec(items: Vec<Places>) -> Self
        ensures { result ≡ items.items }
    {
        Needs { items }
    }

    /// Lends the alternatives.
    pub fn items(&self) -> &[Places]
        ensures { result.now ≡ self.now }
    {
        &self.items
    }

    /// Gives the alternatives back.
    pub fn into_vec(self) -> Vec<Places>
        ensures { result.items ≡ self }
    {
        let Needs { items } = self;
        items
    }
}
