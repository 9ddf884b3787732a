//! The commands by which `clap` reads the words behind the first.

ghost use Rattle.std.specs.Prelude.{◌≡◌, true, false, IfOk, IfSome, is_some};
ghost use Rattle.clap.specs.Words.{app_of, rule_of, takes, HasMatchesOf};
ghost use Rattle.must_words.specs.Readers.{valued_rule, flag_rule, files_rule, bare_app, check_app, dump_app};

use clap::error::ErrorKind;
use clap::{Arg, ArgAction, ArgMatches, Command};
use must_base::{NameText, NoMemory};
use std::alloc::Global;

/// An option with a value, once.
fn valued<'a>(alloc: Global, name: &'a str) -> Arg<'a>
    ensures rule { rule_of result ≡ valued_rule name.entry.now }
    ensures local { result.global ≡ false }
{
    Arg::new(alloc, name).long(name).action(ArgAction::Set)
}

/// An option without a value, once.
fn flag<'a>(alloc: Global, name: &'a str) -> Arg<'a>
    ensures rule { rule_of result ≡ flag_rule name.entry.now }
    ensures local { result.global ≡ false }
{
    Arg::new(alloc, name).long(name).action(ArgAction::SetTrue)
}

/// The words that are no options.
fn files<'a>(alloc: Global) -> Arg<'a>
    ensures rule { rule_of result ≡ files_rule }
    ensures local { result.global ≡ false }
{
    Arg::new(alloc, "files").action(ArgAction::Append)
}

/// A command without options and without help.
fn bare<'a>(alloc: Global, name: &'a str) -> Command<'a>
    ensures { app_of result ≡ bare_app name.entry.now }
{
    Command::new(alloc, name).disable_help_flag(true)
}

/// The command that reads the words of a check.
pub fn check_command<'a>(alloc: Global) -> Result<Command<'a>, NoMemory>
    ensures { IfOk result (λ c. app_of c ≡ check_app) }
{
    let command = bare(alloc, "check")
        .arg(valued(alloc, "fan-in"))?
        .arg(valued(alloc, "sends"))?
        .arg(valued(alloc, "rules"))?
        .arg(flag(alloc, "csv"))?
        .arg(flag(alloc, "serial"))?
        .arg(files(alloc))?;
    Ok(command)
}

/// The command that reads the words of a dump.
pub fn dump_command<'a>(alloc: Global) -> Result<Command<'a>, NoMemory>
    ensures { IfOk result (λ c. app_of c ≡ dump_app) }
{
    let command = bare(alloc, "dump").arg(Arg::new(alloc, "file"))?;
    Ok(command)
}

/// What `clap` makes of the words, the first of which it takes for the command's name; none where it refuses them.
pub fn parse<'a>(
    command: Command<'a>,
    words: &'a [NameText],
) -> Result<Option<ArgMatches<'a>>, NoMemory>
    ensures matches { IfOk result (λ r. IfSome r (HasMatchesOf (app_of command.entry) words.entry.now)) }
    ensures takes { takes (app_of command.entry) words.entry.now ≡ true → IfOk result (λ r. is_some r ≡ true) }
{
    match command.try_get_matches_from(words) {
        Ok(matches) => Ok(Some(matches)),
        Err(error) => {
            if error.kind() == ErrorKind::OutOfMemory {
                Err(NoMemory)
            } else {
                Ok(None)
            }
        }
    }
}
