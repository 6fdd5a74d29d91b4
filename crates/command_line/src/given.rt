//! What the words behind the command give. The first of them stands at place 2.

ghost use Rattle.std.specs.Prelude.{◌≡◌, Option, length, map, string_bytes};
ghost use Rattle.std.specs.Option.{option_map};
ghost use Rattle.command_line.specs.CommandLine.{
  behind,
  given,
  is_given,
  is_option,
  item,
  operand_in,
  operands,
  value_in,
};

use crate::table::{OptionName, front_of};

/// What follows the front of a word.
pub fn behind<'a>(front: &str, word: &'a str) -> Option<&'a str>
    ensures { option_map (λ r. r.now) result ≡ behind front.now word.now }
{
    word.strip_prefix(front)
}

/// The place of the first word of an option, and its value.
pub fn given(option: OptionName, words: &[String]) -> Option<(u64, &str)>
    ensures { option_map (λ p. (p.0, p.1.now)) result
        ≡ given option 2 (map string_bytes words.now) }
{
    let mut place = 2;
    for word in words {
        if let Some(value) = behind(front_of(option), word.as_str()) {
            return Some((place, value));
        }
        place += 1;
    }
    None
}

pub fn is_given(option: OptionName, words: &[String]) -> bool
    ensures { result ≡ is_given option (map string_bytes words.now) }
{
    given(option, words).is_some()
}

/// The value of an option, which is empty where it is not given.
pub fn value_in(option: OptionName, words: &[String]) -> &str
    ensures { result.now ≡ value_in option (map string_bytes words.now) }
{
    match given(option, words) {
        Some((_, value)) => value,
        None => "",
    }
}

pub fn is_option(word: &str) -> bool
    ensures { result ≡ is_option word.now }
{
    word.as_bytes().starts_with(b"--")
}

/// How many operands there are.
pub fn operand_count(words: &[String]) -> usize
    ensures { result ≡ length (operands 2 (map string_bytes words.now)) }
{
    let mut count = 0;
    for word in words {
        if !is_option(word.as_str()) {
            count += 1;
        }
    }
    count
}

/// The operand before which so many others stand, and its place.
pub fn operand(before: usize, words: &[String]) -> Option<(u64, &str)>
    ensures { option_map (λ p. (p.0, p.1.now)) result
        ≡ item (operands 2 (map string_bytes words.now)) before }
{
    let mut left = before;
    let mut place = 2;
    for word in words {
        if !is_option(word.as_str()) {
            if left == 0 {
                return Some((place, word.as_str()));
            }
            left -= 1;
        }
        place += 1;
    }
    None
}

/// An operand, which is empty where it is missing.
pub fn operand_in(before: usize, words: &[String]) -> &str
    ensures { result.now ≡ operand_in before (map string_bytes words.now) }
{
    match operand(before, words) {
        Some((_, word)) => word,
        None => "",
    }
}
