//! The rules of arguments at one call: rules A1 to A7 and H1 to H5, and which parts of the call are usable.
//!
//! What a rank knows of its handles comes by the trait [`View`], so all is proved once for every view.
//!
//! # Cost
//!
//! [`check_args`] goes over the fields of the call once, and asks the view once or twice a handle argument. It is linear in the
//! payload, but for two kinds: a clear `Startall` of n requests takes n log n, to tell which stand twice, and a `CommCreate` of n
//! members takes n log n, to look them up. A rank list is judged by marks. The findings of the call are gathered apart and merged
//! into those that are handed in, which takes time linear in both where there are some: hand in the findings of one step.
//! Memory is taken for findings and for these two kinds, and given back at the end.
#![tactic(auto)]

mod adding;
mod check;
mod fields;
mod handles;
mod numbers;
mod ranks;
mod setting;
mod starts;
mod usable;
mod view;

pub use check::check_args;
pub use setting::{Seat, Setting, setting_of};
pub use starts::was_seen;
pub use usable::Usable;
pub use view::View;

#[cfg(test)]
mod tests;
