//! Structures from the entries of their text.

ghost use Rattle.std.specs.Prelude.{◌≡◌, ◌≤◌, ◌<◌, ◌+◌, ◌++◌, ◌∷◌, IfOk, OnOk, drop, length, map, take};
ghost use Rattle.std.specs.Vec.Iter.{into_iter_items, into_iter_len};
ghost use Rattle.finite_model.specs.Slots.{first_of, function_count, meanings_of, structure_of};
ghost use Rattle.finite_model.specs.StructureView.{the_lists, the_meaning};

use crate::head::Head;
use crate::structure::{Meaning, Structure};
use crate::symbols::is_function;
use cop_base::{NoMemory, SymbolId};
use formula_core::Symbols;
use std::alloc::{AllocFailed, Global};
use std::vec::IntoIter;

// The next entry, if there is one.
fn take_entry(entries: &mut IntoIter<Vec<u8>>, taken: &mut Vec<Vec<u8>>) -> Result<(), NoMemory>
    requires { into_iter_len entries.old ≡ length (into_iter_items entries.old) }
    ensures taken { OnOk result (taken.new.items ≡ taken.old.items ++ take 1 (into_iter_items entries.old)) }
    ensures rest { into_iter_items entries.new ≡ drop 1 (into_iter_items entries.old) }
    ensures len { into_iter_len entries.new ≡ length (into_iter_items entries.new) }
{
    match entries.next() {
        Some(entry) => {
            taken.push(entry)?;
            Ok(())
        }
        None => Ok(()),
    }
}

// So many entries from the front.
fn take_entries(
    alloc: Global,
    entries: &mut IntoIter<Vec<u8>>,
    count: usize,
) -> Result<Vec<Vec<u8>>, NoMemory>
    requires { into_iter_len entries.old ≡ length (into_iter_items entries.old) }
    ensures taken { IfOk result (λ v. v.items ≡ take count (into_iter_items entries.old)) }
    ensures rest { IfOk result (λ _. into_iter_items entries.new ≡ drop count (into_iter_items entries.old)) }
    ensures len { IfOk result (λ _. into_iter_len entries.new ≡ length (into_iter_items entries.new)) }
{
    let mut taken = Vec::new(alloc);
    for _entry in 0..count {
        take_entry(entries, &mut taken)?;
    }
    Ok(taken)
}

// 1 for a function, else 0.
fn count_of(symbols: &Symbols, id: SymbolId) -> usize
    requires { id.0 < length symbols.now }
    ensures count { result + function_count (drop (id.0 + 1) symbols.now) ≡ function_count (drop id.0 symbols.now) }
    ensures few { result ≤ 1 }
{
    if is_function(symbols, id) {
        return 1;
    }
    0
}

fn function_count(symbols: &Symbols) -> usize
    ensures { result ≡ function_count symbols.now }
{
    let mut count = 0;
    for place in 0..symbols.len() {
        let more = count_of(symbols, SymbolId(place as u32));
        count += more;
    }
    count
}

// The next table of a function, or the empty one.
fn next_table(alloc: Global, tables: &mut IntoIter<Vec<u8>>) -> Vec<u8>
    requires { into_iter_len tables.old ≡ length (into_iter_items tables.old) }
    ensures table { result.items ≡ first_of (the_lists (into_iter_items tables.old)) }
    ensures rest { into_iter_items tables.new ≡ drop 1 (into_iter_items tables.old) }
    ensures len { into_iter_len tables.new ≡ length (into_iter_items tables.new) }
{
    match tables.next() {
        Some(table) => table,
        None => Vec::new(alloc),
    }
}

// What the symbol means: the next table of functions, or the next rows, one for each world.
fn meaning_of(
    alloc: Global,
    symbols: &Symbols,
    id: SymbolId,
    worlds: usize,
    tables: &mut IntoIter<Vec<u8>>,
    rows: &mut IntoIter<Vec<u8>>,
) -> Result<Meaning, NoMemory>
    requires there { id.0 < length symbols.now }
    requires tables { into_iter_len tables.old ≡ length (into_iter_items tables.old) }
    requires rows { into_iter_len rows.old ≡ length (into_iter_items rows.old) }
    ensures meaning { IfOk result (λ m. the_meaning m
        ∷ meanings_of worlds (drop (id.0 + 1) symbols.now) (the_lists (into_iter_items tables.new)) (the_lists (into_iter_items rows.new))
        ≡ meanings_of worlds (drop id.0 symbols.now) (the_lists (into_iter_items tables.old)) (the_lists (into_iter_items rows.old))) }
    ensures tables { IfOk result (λ _. into_iter_len tables.new ≡ length (into_iter_items tables.new)) }
    ensures rows { IfOk result (λ _. into_iter_len rows.new ≡ length (into_iter_items rows.new)) }
{
    if is_function(symbols, id) {
        let table = next_table(alloc, tables);
        return Ok(Meaning::Values(table));
    }
    let taken = take_entries(alloc, rows, worlds)?;
    Ok(Meaning::Truths(taken))
}

fn meanings_of(
    alloc: Global,
    symbols: &Symbols,
    worlds: usize,
    functions: Vec<Vec<u8>>,
    rows: &mut IntoIter<Vec<u8>>,
) -> Result<Vec<Meaning>, NoMemory>
    requires { into_iter_len rows.old ≡ length (into_iter_items rows.old) }
    ensures { IfOk result (λ v. map the_meaning v.items
        ≡ meanings_of worlds symbols.now (the_lists functions.items) (the_lists (into_iter_items rows.old))) }
{
    let mut tables = functions.into_iter();
    let mut meanings = Vec::new(alloc);
    for place in 0..symbols.len() {
        let id = SymbolId(place as u32);
        let meaning = meaning_of(alloc, symbols, id, worlds, &mut tables, rows)?;
        meanings.push(meaning)?;
    }
    Ok(meanings)
}

/// The structure of these entries, one for each slot.
pub fn structure_of(
    alloc: Global,
    symbols: &Symbols,
    head: &Head,
    entries: Vec<Vec<u8>>,
) -> Result<Structure, NoMemory>
    requires { head.now.worlds ≤ 64 }
    ensures { IfOk result (λ s. s ≡ structure_of symbols.now head.now.worlds head.now.elements (the_lists entries.items)) }
{
    let worlds = head.worlds as usize;
    let mut entries = entries.into_iter();
    let successors = take_entries(alloc, &mut entries, worlds)?;
    let domains = take_entries(alloc, &mut entries, worlds)?;
    let count = function_count(symbols);
    let functions = take_entries(alloc, &mut entries, count)?;
    let meanings = meanings_of(alloc, symbols, worlds, functions, &mut entries)?;
    Ok(Structure::new(head.elements, successors, domains, meanings))
}
