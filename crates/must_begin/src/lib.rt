//! The operations that a call begins: what it sends, receives or probes, and what it starts for persistent requests
//! (docs/MESSAGES.md, "Operations"); what the status in a receive's or a probe's own record contradicts, and which collective calls
//! wait for their wave.
//!
//! What the rank knows of its communicators comes by a [`View`](must_args::View) and by the name of the call's communicator, and
//! the types that its handles stand for by [`Datatypes`](must_derived::Datatypes).
//!
//! # Cost
//!
//! A call that sends, receives, probes and starts nothing takes constant time and no memory. An operation takes the time of its
//! signature, which is that of must_sig's `Sig::of`, and of one push; its name is shared. A start takes the logarithm of the
//! number of persistent requests that are live, and of the length of its list; what it begins shares the signature and the name
//! that are kept with the request.
#![tactic(auto)]

mod begun;
mod named;
mod requests;
mod sides;
mod status;
mod terms;
#[cfg(test)]
mod tests;
mod wave;

pub use named::Named;
pub use requests::Requests;
pub use status::{own_contradiction, own_part};
pub use wave::waits_for_wave;
