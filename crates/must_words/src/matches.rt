//! What the matches of a check tell.

ghost use Rattle.std.specs.Prelude.{◌≡◌, ◌-◌, Bool, List, ℕ, Some, codes, drop, length, option_and_then};
ghost use Rattle.clap.specs.Words.{all_of, first_of, found_of, one_of, rows_of};
ghost use Rattle.must_settings.specs.RulesFile.{sends_by_name};
ghost use Rattle.must_words.specs.Asked.{options_asked};
ghost use Rattle.must_words.specs.Command.{Options, fan_in_named};
ghost use Rattle.must_words.specs.Readers.{Tells, flag_word, given};

use crate::values::fan_in_of;
use crate::words::OptionWords;
use clap::ArgMatches;
use must_base::NameText;
use must_plan::Sends;
use must_settings::sends_named;

fn fan_in(matches: &ArgMatches) -> Option<u8>
    ensures { result ≡ option_and_then fan_in_named (first_of (codes "fan-in") (rows_of (found_of matches.now))) }
{
    match matches.get_str("fan-in") {
        Some(word) => fan_in_of(word),
        None => None,
    }
}

fn sends(matches: &ArgMatches) -> Option<Sends>
    ensures { result ≡ option_and_then sends_by_name (first_of (codes "sends") (rows_of (found_of matches.now))) }
{
    match matches.get_str("sends") {
        Some(word) => sends_named(word),
        None => None,
    }
}

fn has_flag(matches: &ArgMatches, name: &str) -> bool
    ensures { (b : Bool) → one_of name.now (rows_of (found_of matches.now)) ≡ Some (flag_word b) → result ≡ b }
{
    matches.get_flag(name)
}

/// The options of a check.
pub fn options_of<'a>(matches: &ArgMatches<'a>) -> OptionWords<'a>
    ensures { (o : Options) (fs : List (List ℕ)) → Tells o fs (rows_of (found_of matches.now)) → options_asked result ≡ o }
{
    OptionWords {
        fan_in: fan_in(matches),
        sends: sends(matches),
        rules: matches.get_str("rules"),
        csv: has_flag(matches, "csv"),
        serial: has_flag(matches, "serial"),
    }
}

fn count_files(matches: &ArgMatches) -> usize
    ensures { (fs : List (List ℕ)) → all_of (codes "files") (rows_of (found_of matches.now)) ≡ given fs → result ≡ length fs }
{
    match matches.get_raw("files") {
        Some(files) => files.len(),
        None => 0,
    }
}

/// The files of a check, which stand last in its words.
pub fn files_of<'a>(matches: &ArgMatches, words: &'a [NameText]) -> &'a [NameText]
    ensures { (fs : List (List ℕ)) → all_of (codes "files") (rows_of (found_of matches.now)) ≡ given fs
        → result.now ≡ drop (length words.entry.now - length fs) words.entry.now }
{
    let first = words.len().saturating_sub(count_files(matches));
    &words[first..]
}
