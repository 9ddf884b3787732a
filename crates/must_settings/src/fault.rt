//! Why a rules file gives no settings.

ghost use Rattle.std.specs.Prelude.{◌≡◌};
ghost use Rattle.must_settings.specs.declared.fault.SettingsFault.TheVariants.{NoMemory as OutOfMemory};
ghost use Rattle.must_settings.specs.declared.fault.RulesFault.TheVariants.{NoMemory as NoRoom, Read as FailedRead};

use must_base::{Failed, NoMemory};
use thiserror::Error;

/// Why a rules file gives no settings.
#[derive(Clone, Copy, Debug, PartialEq, Eq, Error)]
pub enum SettingsFault {
    /// It is too long, no TOML document, or has a key, a code or a value that isn't known.
    #[error("rules file refused")]
    Refused,
    /// There was no memory to read it.
    #[error("out of memory")]
    NoMemory,
}

impl From<NoMemory> for SettingsFault {
    ghost from_gives = { λ _ e. e ≡ OutOfMemory };

    fn from(_e: NoMemory) -> SettingsFault {
        SettingsFault::NoMemory
    }
}

/// Why the rules file of a check gives no settings.
#[derive(Clone, Copy, Debug, PartialEq, Eq)]
pub enum RulesFault {
    /// A read of it failed.
    Read,
    /// It is too long, no TOML document, or has a key, a code or a value that isn't known.
    Refused,
    /// There was no memory to read it.
    NoMemory,
}

impl From<NoMemory> for RulesFault {
    ghost from_gives = { λ _ e. e ≡ NoRoom };

    fn from(_e: NoMemory) -> RulesFault {
        RulesFault::NoMemory
    }
}

impl From<Failed> for RulesFault {
    ghost from_gives = { λ _ e. e ≡ FailedRead };

    fn from(_e: Failed) -> RulesFault {
        RulesFault::Read
    }
}
