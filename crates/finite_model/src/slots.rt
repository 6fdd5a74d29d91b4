//! How the lines of worlds and symbols begin.

ghost use Rattle.std.specs.Prelude.{◌≡◌, ◌++◌, ◌<◌, ◌^◌, IfOk, OnOk, Some, decimal, length, slice_get, suc};
ghost use Rattle.calculus.specs.StructureText.{symbol_head};
ghost use Rattle.calculus.specs.Syntax as tree;
ghost use Rattle.calculus.specs.Text.{symbol_text};
ghost use Rattle.finite_model.specs.Reading.{the_slot};
ghost use Rattle.finite_model.specs.Slots.{function_slot, place_slot};

use crate::slot::{Form, Slot};
use cop_base::{NoMemory, SymbolId};
use formula_core::{SymbolClass, Symbols};
use formula_text::{write_bytes, write_name, write_number};
use std::alloc::{AllocError, AllocFailed, Global};

/// The line of a world: a word, its number and the bytes after it.
pub fn world_slot(
    alloc: Global,
    word: &[u8],
    after: &[u8],
    world: u8,
    form: Form,
) -> Result<Slot, NoMemory>
    ensures { IfOk result (λ s. the_slot s ≡ place_slot (word.now ++ decimal (suc world) ++ after.now) form) }
{
    let mut front = Vec::from_slice(alloc, word)?;
    write_number(&mut front, u64::from(world) + 1)?;
    write_bytes(&mut front, after)?;
    Ok(Slot { front, form })
}

fn write_symbol(out: &mut Vec<u8>, symbols: &Symbols, id: SymbolId) -> Result<(), NoMemory>
    requires { id.0 < length symbols.now }
    ensures { OnOk result ((s : tree.Symbol) → slice_get symbols.now id.0 ≡ Some s
        → out.new.items ≡ out.old.items ++ symbol_text s) }
{
    let symbol = symbols.get(id);
    match symbol.class {
        SymbolClass::Function => write_name(out, symbols, id),
        SymbolClass::Predicate => write_name(out, symbols, id),
        SymbolClass::Equality => write_bytes(out, symbol.name.bytes()),
        SymbolClass::Truth => write_bytes(out, b"$$o"),
    }
}

/// A word, the name of the symbol, and its arity.
pub fn symbol_front(
    alloc: Global,
    word: &[u8],
    symbols: &Symbols,
    id: SymbolId,
) -> Result<Vec<u8>, NoMemory>
    requires { id.0 < length symbols.now }
    ensures { IfOk result (λ v. (s : tree.Symbol) → slice_get symbols.now id.0 ≡ Some s
        → v.items ≡ word.now ++ symbol_head s) }
{
    let mut front = Vec::from_slice(alloc, word)?;
    write_symbol(&mut front, symbols, id)?;
    write_bytes(&mut front, b" ")?;
    write_number(&mut front, u64::from(symbols.get(id).arity))?;
    Ok(front)
}

/// The line of a function symbol.
pub fn function_slot(
    alloc: Global,
    symbols: &Symbols,
    id: SymbolId,
    count: usize,
    elements: u8,
) -> Result<Slot, NoMemory>
    requires { id.0 < length symbols.now }
    ensures { IfOk result (λ f. (s : tree.Symbol) → slice_get symbols.now id.0 ≡ Some s → count ≡ elements ^ s.arity
        → the_slot f ≡ function_slot elements s) }
{
    let front = symbol_front(alloc, b"function ", symbols, id)?;
    let form = Form::Values {
        count,
        most: elements,
    };
    Ok(Slot { front, form })
}
