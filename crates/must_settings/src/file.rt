//! The rules file as a source.

ghost use Rattle.std.specs.Prelude.{◌≡◌, ◌≤◌, ◌++◌, ℕ, List, [], Some, None, Err, OnOk, IfOk, length};
ghost use Rattle.std.specs.Io.KnownBytes.{Consumes, IsAtEnd};
ghost use Rattle.must_base.specs.Causes.{Rose};
ghost use Rattle.must_settings.specs.Taking.{IsLeftOf};
ghost use Rattle.must_settings.specs.declared.fault.RulesFault.TheVariants.{Read as FailedRead, Refused};
ghost use Rattle.must_settings.specs.declared.read.TheConstants.{MOST_SETTINGS_BYTES};
ghost use Rattle.must_settings.specs.RulesFile.{rules_file, Sets};

use crate::fault::{RulesFault, SettingsFault};
use crate::read::{MOST_SETTINGS_BYTES, read_settings};
use crate::settings::Settings;
use must_base::{NoMemory, Source};
use std::alloc::Global;

fn push_bytes(taken: &mut Vec<u8>, bytes: &[u8]) -> Result<(), NoMemory>
    ensures { OnOk result (taken.new.items ≡ taken.old.items ++ bytes.now) }
{
    taken.extend_from_slice(bytes)?;
    Ok(())
}

/// Takes the bytes of a source up to its end, or some more than a rules file may have.
fn take_bytes<S: Source>(alloc: Global, src: &mut S) -> Result<Vec<u8>, RulesFault>
    ensures bytes { IfOk result (λ taken. Consumes (S.left src.old) (S.left src.new) taken.items) }
    ensures end { IfOk result (λ taken. length taken.items ≤ MOST_SETTINGS_BYTES → IsAtEnd (S.left src.new)) }
    ensures never { result ≡ Err Refused → ⊥ }
    ensures read { result ≡ Err FailedRead → Rose (S.faults src.old) (S.faults src.new) }
    ensures tied { (bytes : List ℕ) → S.left src.old ≡ Some bytes → IsLeftOf bytes (S.left src.new) }
{
    let mut taken = Vec::new(alloc);
    let mut buf = [0u8; 4096];
    for _ in 0..MOST_SETTINGS_BYTES + 2 {
        let count = src.read(&mut buf)?;
        if count == 0 {
            return Ok(taken);
        }
        push_bytes(&mut taken, &buf[..count])?;
        if taken.len() > MOST_SETTINGS_BYTES {
            return Ok(taken);
        }
    }
    Ok(taken)
}

/// Reads a rules file that wasn't read yet, to its end, and gives its settings. Of a file that is too long some more bytes
/// are read than it may have.
///
/// # Errors
///
/// `Read` comes where a read failed. `Refused` and `NoMemory` are as in `read_settings`.
pub fn settings_of<S: Source>(alloc: Global, src: &mut S) -> Result<Settings, RulesFault>
    ensures accepted { IfOk result (λ settings. (bytes : List ℕ) → S.left src.old ≡ Some bytes → Sets bytes settings × (S.left src.new ≡ Some [])) }
    ensures refused { result ≡ Err Refused → (bytes : List ℕ) → S.left src.old ≡ Some bytes → rules_file bytes ≡ None }
    ensures read { result ≡ Err FailedRead → Rose (S.faults src.old) (S.faults src.new) }
    ensures tied { (bytes : List ℕ) → S.left src.old ≡ Some bytes → IsLeftOf bytes (S.left src.new) }
{
    let bytes = take_bytes(alloc, src)?;
    match read_settings(alloc, &bytes) {
        Ok(settings) => Ok(settings),
        Err(SettingsFault::Refused) => Err(RulesFault::Refused),
        Err(SettingsFault::NoMemory) => Err(RulesFault::NoMemory),
    }
}
