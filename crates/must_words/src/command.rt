//! The command of the words.

ghost use Rattle.std.specs.Prelude.{◌≡◌, ◌≤◌, ◌∷◌, List, [], ℕ, true, drop, length, Some, None, IfSome, IfOk, IfErr, is_some};
ghost use Rattle.std.specs.Option.{option_map};
ghost use Rattle.must_format.specs.declared.limits.TheConstants.{MOST_RANKS};
ghost use Rattle.clap.specs.Words.{found_of, rows_of};
ghost use Rattle.must_words.specs.Command.{no_options as none_asked, check_of, check_words as check_in, dump_words as dump_in, command, is_file, Check};
ghost use Rattle.must_words.specs.Readers.{Tells};
ghost use Rattle.must_words.specs.Asked.{options_asked, check_asked, command_asked, IsShort};

use crate::matches::{files_of, options_of};
use crate::options::{no_options, take_option};
use crate::readers::{check_command, dump_command, parse};
use crate::values::{are_file_words, is_file_word};
use crate::words::{CheckWords, CommandWords, OptionWords};
use clap::ArgMatches;
use must_base::{NameText, NoMemory};
use std::alloc::Global;

/// A check of the files that these words name, where they are file words.
fn check_of_files<'a>(options: OptionWords<'a>, words: &'a [NameText]) -> Option<CheckWords<'a>>
    ensures check { option_map check_asked result ≡ check_of (options_asked options.entry) words.entry.now }
{
    if are_file_words(words) {
        Some(CheckWords {
            options,
            files: words,
        })
    } else {
        None
    }
}

/// What words ask for behind these options: at most so many options more, and then the files.
fn check_behind<'a>(
    most: u32,
    options: OptionWords<'a>,
    words: &'a [NameText],
) -> Option<CheckWords<'a>>
    ensures check { option_map check_asked result ≡ check_in most (options_asked options.entry) words.entry.now }
{
    if most == 0 {
        return check_of_files(options, words);
    }
    match take_option(options, words) {
        Some(more) => check_behind(most - 1, more.options, more.words),
        None => check_of_files(options, words),
    }
}

/// Whether the words behind `check` are its five options, each at most once, and then its files.
fn is_check(words: &[NameText]) -> bool
    ensures { result ≡ is_some (check_in 5 none_asked words.now) }
{
    check_behind(5, no_options(), words).is_some()
}

/// What `clap` makes of the words of a check, which it takes where they are canonical.
fn check_matches<'a>(
    alloc: Global,
    words: &'a [NameText],
) -> Result<Option<ArgMatches<'a>>, NoMemory>
    ensures takes { (first : List ℕ) (rest : List (List ℕ)) (c : Check) → words.entry.now ≡ first ∷ rest → check_in 5 none_asked rest ≡ Some c
        → IfOk result (λ r. is_some r ≡ true) }
    ensures tells { (first : List ℕ) (rest : List (List ℕ)) (c : Check) → words.entry.now ≡ first ∷ rest → check_in 5 none_asked rest ≡ Some c
        → IfOk result (λ r. IfSome r (λ m. Tells c.options c.files (rows_of (found_of m)))) }
{
    let command = check_command(alloc)?;
    parse(command, words)
}

/// The check that canonical words ask for.
fn read_check<'a>(alloc: Global, words: &'a [NameText]) -> Result<Option<CheckWords<'a>>, NoMemory>
    ensures check { (first : List ℕ) (rest : List (List ℕ)) (c : Check) → words.entry.now ≡ first ∷ rest → check_in 5 none_asked rest ≡ Some c
        → IfOk result (λ r. option_map check_asked r ≡ Some c) }
{
    match check_matches(alloc, words)? {
        Some(matches) => Ok(Some(CheckWords {
            options: options_of(&matches),
            files: files_of(&matches, words),
        })),
        None => Ok(None),
    }
}

/// What the words of a check ask for.
fn check_words<'a>(alloc: Global, words: &'a [NameText]) -> Result<Option<CheckWords<'a>>, NoMemory>
    ensures check { IfOk result (λ r. option_map check_asked r ≡ check_in 5 none_asked (drop 1 words.entry.now)) }
    ensures memory { IfErr result (λ _. is_some (check_in 5 none_asked (drop 1 words.entry.now)) ≡ true) }
    ensures count { IfOk result (λ r. IfSome r (λ c. (1 ≤ length c.files.now) × (length c.files.now ≤ MOST_RANKS))) }
{
    match words {
        [] => Ok(None),
        [_, rest @ ..] => {
            if is_check(rest) {
                read_check(alloc, words)
            } else {
                Ok(None)
            }
        }
    }
}

/// Whether the words behind `dump` are one file.
fn is_dump(words: &[NameText]) -> bool
    ensures { result ≡ is_some (dump_in words.now) }
{
    match words {
        [file] => is_file_word(file),
        _ => false,
    }
}

/// The file that canonical words of a dump name.
fn read_dump<'a>(alloc: Global, words: &'a [NameText]) -> Result<Option<&'a str>, NoMemory>
    ensures { (first file : List ℕ) → words.entry.now ≡ first ∷ file ∷ [] → is_file file ≡ true
        → IfOk result (λ r. option_map (λ f. f.now) r ≡ Some file) }
{
    let command = dump_command(alloc)?;
    match parse(command, words)? {
        Some(matches) => Ok(matches.get_str("file")),
        None => Ok(None),
    }
}

/// The file that the words of a dump name.
fn dump_words<'a>(alloc: Global, words: &'a [NameText]) -> Result<Option<&'a str>, NoMemory>
    ensures dump { IfOk result (λ r. option_map (λ f. f.now) r ≡ dump_in (drop 1 words.entry.now)) }
    ensures memory { IfErr result (λ _. is_some (dump_in (drop 1 words.entry.now)) ≡ true) }
{
    match words {
        [] => Ok(None),
        [_, rest @ ..] => {
            if is_dump(rest) {
                read_dump(alloc, words)
            } else {
                Ok(None)
            }
        }
    }
}

/// What the words ask for; none exactly where they aren't canonical. Canonical words take memory to be read, and others take none.
pub fn command_words<'a>(
    alloc: Global,
    words: &'a [NameText],
) -> Result<Option<CommandWords<'a>>, NoMemory>
    ensures command { IfOk result (λ r. option_map command_asked r ≡ command words.entry.now) }
    ensures memory { IfErr result (λ _. is_some (command words.entry.now) ≡ true) }
    ensures short { IfOk result (λ r. IfSome r IsShort) }
{
    match words {
        [] => Ok(None),
        [first, ..] => {
            if first.text() == "check" {
                match check_words(alloc, words)? {
                    Some(check) => Ok(Some(CommandWords::Check(check))),
                    None => Ok(None),
                }
            } else if first.text() == "dump" {
                match dump_words(alloc, words)? {
                    Some(file) => Ok(Some(CommandWords::Dump(file))),
                    None => Ok(None),
                }
            } else {
                Ok(None)
            }
        }
    }
}
