//! The words of numbers.

ghost use Rattle.std.specs.Prelude.{◌≡◌};
ghost use Rattle.leancop_c.specs.Names.{cause_words, fault_words, padded};

use crate::LeancopName;
use crate::room::place;

/// The words, with zeros behind them.
pub fn named(words: &[u8]) -> LeancopName
    ensures { result.text ≡ padded words.now }
{
    let mut text = [0; 32];
    place(&mut text, words);
    LeancopName { text }
}

/// The words of a fault, or none.
pub fn fault_words(number: u32) -> &'static [u8]
    ensures { result.now ≡ fault_words number }
{
    match number {
        1 => b"version",
        2 => b"setting",
        3 => b"formula",
        4 => b"limit",
        5 => b"name",
        6 => b"line",
        7 => b"text after end",
        8 => b"label",
        9 => b"term",
        10 => b"table",
        21 => b"no entry",
        22 => b"no connection",
        23 => b"wrong arguments",
        24 => b"unknown name",
        25 => b"not reachable",
        26 => b"not new",
        27 => b"wrong home",
        28 => b"not allowed",
        31 => b"all closed",
        32 => b"still open",
        _ => b"",
    }
}

/// The words of a cause, or none.
pub fn cause_words(number: u32) -> &'static [u8]
    ensures { result.now ≡ cause_words number }
{
    match number {
        1 => b"syntax",
        2 => b"unsupported",
        3 => b"reserved word",
        4 => b"wrong language",
        5 => b"second conjecture",
        6 => b"unknown role",
        7 => b"include too deep",
        8 => b"include name absent",
        9 => b"no formula",
        10 => b"input too large",
        11 => b"nesting too deep",
        12 => b"formula too large",
        13 => b"too many symbols",
        _ => b"",
    }
}
