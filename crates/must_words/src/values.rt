//! The words that are files or values of options.

ghost use Rattle.std.specs.Prelude.{◌≡◌};
ghost use Rattle.std.specs.List.{list_all};
ghost use Rattle.must_words.specs.Command.{is_file, are_files, is_digit, small_number as number_of, fan_in_named};

use must_base::NameText;
use must_format::MOST_RANKS;

pub fn is_file_word(word: &NameText) -> bool
    ensures { result ≡ is_file word.now }
{
    let text = word.text().as_bytes();
    !text.is_empty() && text[0] != b'-'
}

fn all_file_words(words: &[NameText]) -> bool
    ensures { result ≡ list_all is_file words.now }
{
    words.iter().all(|word| is_file_word(word))
}

pub fn are_file_words(words: &[NameText]) -> bool
    ensures { result ≡ are_files words.now }
{
    !words.is_empty() && words.len() <= MOST_RANKS as usize && all_file_words(words)
}

fn is_digit_byte(byte: u8) -> bool
    ensures { result ≡ is_digit byte }
{
    48 <= byte && byte <= 57
}

/// A number of one or two decimal digits, without a sign or a leading zero.
fn small_number(word: &[u8]) -> Option<u8>
    ensures { result ≡ number_of word.now }
{
    match word {
        [digit] => {
            if is_digit_byte(*digit) {
                Some(*digit - 48)
            } else {
                None
            }
        }
        [tens, ones] => {
            if is_digit_byte(*tens) && is_digit_byte(*ones) && *tens != 48 {
                Some((*tens - 48) * 10 + (*ones - 48))
            } else {
                None
            }
        }
        _ => None,
    }
}

/// How many children a node of a tree has, 2 to 64.
pub fn fan_in_of(word: &str) -> Option<u8>
    ensures { result ≡ fan_in_named word.now }
{
    match small_number(word.as_bytes()) {
        Some(number) => {
            if 2 <= number && number <= 64 {
                Some(number)
            } else {
                None
            }
        }
        None => None,
    }
}
