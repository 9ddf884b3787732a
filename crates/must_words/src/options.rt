//! The options of a check.

ghost use Rattle.std.specs.Prelude.{◌≡◌, Some};
ghost use Rattle.std.specs.Option.{option_map};
ghost use Rattle.must_settings.specs.RulesFile.{sends_by_name};
ghost use Rattle.must_words.specs.Command.{no_options as none_asked, with_fan_in as asked_fan_in, with_sends as asked_sends, with_rules as asked_rules, fan_in_named, file_named, flag_at, valued_at, value_at, option_at};
ghost use Rattle.must_words.specs.Asked.{options_asked, taken_asked};

use crate::values::{fan_in_of, is_file_word};
use crate::words::OptionWords;
use must_base::NameText;
use must_settings::sends_named;

/// Options with one more, and the words behind it.
#[derive(Clone, Copy)]
pub struct Taken<'a> {
    pub options: OptionWords<'a>,
    pub words: &'a [NameText],
}

/// No options.
pub fn no_options<'a>() -> OptionWords<'a>
    ensures { options_asked result ≡ none_asked }
{
    OptionWords {
        fan_in: None,
        sends: None,
        rules: None,
        csv: false,
        serial: false,
    }
}

/// An option without a value.
fn take_flag<'a>(options: OptionWords<'a>, word: &str) -> Option<OptionWords<'a>>
    ensures { option_map options_asked result ≡ flag_at (options_asked options.entry) word.now }
{
    let mut more = options;
    if word == "--csv" && !options.csv {
        more.csv = true;
        return Some(more);
    }
    if word == "--serial" && !options.serial {
        more.serial = true;
        return Some(more);
    }
    None
}

fn with_fan_in<'a>(options: OptionWords<'a>, value: &NameText) -> Option<OptionWords<'a>>
    ensures { option_map options_asked result ≡ option_map (asked_fan_in (options_asked options.entry)) (fan_in_named value.now) }
{
    let mut more = options;
    match fan_in_of(value.text()) {
        Some(number) => {
            more.fan_in = Some(number);
            Some(more)
        }
        None => None,
    }
}

fn with_sends<'a>(options: OptionWords<'a>, value: &NameText) -> Option<OptionWords<'a>>
    ensures { option_map options_asked result ≡ option_map (asked_sends (options_asked options.entry)) (sends_by_name value.now) }
{
    let mut more = options;
    match sends_named(value.text()) {
        Some(sends) => {
            more.sends = Some(sends);
            Some(more)
        }
        None => None,
    }
}

fn with_rules<'a>(options: OptionWords<'a>, value: &'a NameText) -> Option<OptionWords<'a>>
    ensures { option_map options_asked result ≡ option_map (asked_rules (options_asked options.entry)) (file_named value.entry.now) }
{
    let mut more = options;
    if is_file_word(value) {
        more.rules = Some(value.text());
        Some(more)
    } else {
        None
    }
}

/// An option with the value behind it.
fn take_valued<'a>(
    options: OptionWords<'a>,
    word: &str,
    value: &'a NameText,
) -> Option<OptionWords<'a>>
    ensures { option_map options_asked result ≡ valued_at (options_asked options.entry) word.now value.entry.now }
{
    if word == "--fan-in" && options.fan_in.is_none() {
        return with_fan_in(options, value);
    }
    if word == "--sends" && options.sends.is_none() {
        return with_sends(options, value);
    }
    if word == "--rules" && options.rules.is_none() {
        return with_rules(options, value);
    }
    None
}

fn take_value<'a>(options: OptionWords<'a>, word: &str, words: &'a [NameText]) -> Option<Taken<'a>>
    ensures { option_map taken_asked result ≡ value_at (options_asked options.entry) word.now words.entry.now }
{
    match words {
        [] => None,
        [value, rest @ ..] => match take_valued(options, word, value) {
            Some(options) => Some(Taken {
                options,
                words: rest,
            }),
            None => None,
        },
    }
}

/// The option in front of some words, where one stands there.
pub fn take_option<'a>(options: OptionWords<'a>, words: &'a [NameText]) -> Option<Taken<'a>>
    ensures { option_map taken_asked result ≡ option_at (options_asked options.entry) words.entry.now }
{
    match words {
        [] => None,
        [word, rest @ ..] => match take_flag(options, word.text()) {
            Some(options) => Some(Taken {
                options,
                words: rest,
            }),
            None => take_value(options, word.text(), rest),
        },
    }
}
