//! The names of symbols.

ghost use Rattle.std.specs.Prelude.{◌≡◌, ◌++◌, IsTrue, OnOk, OnErr};
ghost use Rattle.std.specs.List.{flat_map, list_all};
ghost use Rattle.calculus.specs.Text.{escaped, is_lower, is_lower_word, is_word_byte, name_text, symbol_at, symbol_text};
ghost use Rattle.formula_core.specs.SymbolView.{the_symbol};
ghost use Rattle.formula_text.specs.Extends.{Extends};
ghost use Rattle.formula_text.specs.Known.{is_named};
ghost use Rattle.formula_text.specs.Single.{NameTextsDiffer};

use crate::append::{append_byte, append_bytes, undo_if_failed};
use calculus::byte::{is_lower, is_word_byte};
use cop_base::{NoMemory, SymbolId};
use formula_core::{Symbol, SymbolClass, Symbols};

fn are_word_bytes(bytes: &[u8]) -> bool
    ensures { result ≡ list_all is_word_byte bytes.now }
{
    bytes.iter().all(|byte| is_word_byte(*byte))
}

// Whether a name is a lower-case letter, then letters, digits and `_`.
pub fn is_lower_word(name: &[u8]) -> bool
    ensures { result ≡ is_lower_word name.now }
{
    match name {
        [] => false,
        [first, rest @ ..] => { is_lower(*first) && are_word_bytes(rest) }
    }
}

// A `\` before a `'` or a `\`.
fn append_escaped_byte(out: &mut Vec<u8>, byte: u8) -> Result<(), NoMemory>
    ensures ok { OnOk result (out.new.items ≡ out.old.items ++ escaped byte) }
    ensures extends { Extends out.old.items out.new.items }
{
    if byte == b'\'' || byte == b'\\' {
        append_byte(out, b'\\')?;
        return append_byte(out, byte);
    }
    append_byte(out, byte)
}

fn append_escaped(out: &mut Vec<u8>, name: &[u8]) -> Result<(), NoMemory>
    ensures ok { OnOk result (out.new.items ≡ out.old.items ++ flat_map escaped name.now) }
    ensures extends { Extends out.old.items out.new.items }
{
    for byte in name {
        append_escaped_byte(out, *byte)?;
    }
    Ok(())
}

fn append_name(out: &mut Vec<u8>, name: &[u8]) -> Result<(), NoMemory>
    ensures ok { OnOk result (out.new.items ≡ out.old.items ++ name_text name.now) }
    ensures extends { Extends out.old.items out.new.items }
{
    if is_lower_word(name) {
        return append_bytes(out, name);
    }
    append_byte(out, b'\'')?;
    append_escaped(out, name)?;
    append_byte(out, b'\'')
}

pub fn append_symbol(out: &mut Vec<u8>, s: &Symbol) -> Result<(), NoMemory>
    ensures ok { OnOk result (out.new.items ≡ out.old.items ++ symbol_text (the_symbol s.now)) }
    ensures extends { Extends out.old.items out.new.items }
{
    match s.class {
        SymbolClass::Function | SymbolClass::Predicate => append_name(out, s.name.bytes()),
        SymbolClass::Equality => append_bytes(out, s.name.bytes()),
        SymbolClass::Truth => append_bytes(out, b"$$o"),
    }
}

/// Appends the name of a function or predicate symbol: bare where it is a lower-case letter with letters, digits and `_` after it,
/// else in single quotes, with a `\` before each `'` and `\`.
pub fn write_name(out: &mut Vec<u8>, symbols: &Symbols, id: SymbolId) -> Result<(), NoMemory>
    requires { IsTrue (is_named symbols.now id.0) }
    ensures ok { OnOk result (out.new.items ≡ out.old.items ++ symbol_at symbols.now id.0) }
    ensures err { OnErr result (out.new.items ≡ out.old.items) }
    ensures apart { NameTextsDiffer }
{
    let kept = out.len();
    let appended = append_symbol(out, symbols.get(id));
    undo_if_failed(out, kept, appended)
}
