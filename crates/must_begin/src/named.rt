//! The communicator that a call names.

use must_group::CommName;

/// The communicator that a call names, which is live and has a name there.
#[derive(Clone, Copy, Drop)]
pub struct Named<'a> {
    /// Its handle.
    pub comm: u32,
    pub name: &'a CommName,
}
