//! A port, as the functions of a tree hold it.

ghost use Rattle.std.specs.Prelude.{◌≡◌};

use must_inbox::Port;
use std::marker::{Model, PhantomData};

/// A port beside parts of this type. The type is named since closures in a cycle of calls are only covered by the borrow checker
/// where all that they capture by `&mut` is of the type parameter.
#[derive(Drop)]
pub(crate) struct Berth<S> {
    pub port: Port,
    of: PhantomData<S>,
}

impl<S> Model for Berth<S> {
    ghost use Rattle.must_inbox.specs.States.{PortState};

    ghost Value = { PortState };

    ghost view = { λ a. a.port };
}

impl<S> Berth<S> {
    pub fn new(port: Port) -> Berth<S>
        ensures { result ≡ port }
    {
        Berth {
            port,
            of: PhantomData,
        }
    }

    pub fn into_port(self) -> Port
        ensures { result ≡ self }
    {
        let Berth { port, of: _ } = self;
        port
    }
}
