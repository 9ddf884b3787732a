//! The law, called once.

use crate::generated_runs_are_accepted;
use std::test::Fail;

/// The call ends.
#[test]
fn the_law_is_called(_rt: HostRuntime) -> Result<(), Fail> {
    generated_runs_are_accepted();
    Ok(())
}
