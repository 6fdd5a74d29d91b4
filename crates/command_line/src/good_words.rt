//! Which words are good.

ghost use Rattle.std.specs.Prelude.{◌≡◌, Option, [], map, string_bytes};
ghost use Rattle.std.specs.List.{list_any};
ghost use Rattle.command_line.specs.CommandLine.{
  first_bad,
  gives,
  is_good,
};
ghost use Rattle.command_line.specs.Table.{options_of};

use crate::given::{behind, is_given, is_option, operand_count};
use crate::table::{CommandName, OptionName, front_of, operands_of, options_of};
use crate::value::{is_operand, is_value};

fn gives(before: &[String], word: &str, option: OptionName) -> bool
    ensures { result ≡ gives (map string_bytes before.now) word.now option }
{
    match behind(front_of(option), word) {
        Some(value) => is_value(option, value) && !is_given(option, before),
        None => false,
    }
}

fn gives_any(before: &[String], word: &str, options: &[OptionName]) -> bool
    ensures { result ≡ list_any (gives (map string_bytes before.now) word.now) options.now }
{
    for option in options {
        if gives(before, word, *option) {
            return true;
        }
    }
    false
}

// Whether a word is good behind these.
fn is_good(command: CommandName, before: &[String], word: &str) -> bool
    ensures { result ≡ is_good command (map string_bytes before.now) word.now }
{
    if is_option(word) {
        return gives_any(before, word, options_of(command));
    }
    match operands_of(command).get(operand_count(before)) {
        Some(operand) => is_operand(*operand, word),
        None => false,
    }
}

/// The place of the first bad word, or of a missing one.
pub fn first_bad(command: CommandName, words: &[String]) -> Option<u64>
    ensures { result ≡ first_bad command [] (map string_bytes words.now) }
{
    for (index, word) in words.iter().enumerate() {
        if !is_good(command, &words[..index], word.as_str()) {
            return Some(2 + index as u64);
        }
    }
    if operand_count(words) < operands_of(command).len() {
        Some(2 + words.len() as u64)
    } else {
        None
    }
}
