//! Reading the lines behind the head, in their order. How a line begins is made when it is read: there are as many as worlds times
//! symbols, however short the text is.

ghost use Rattle.std.specs.Prelude.{◌≡◌, ◌≤◌, ◌<◌, ◌+◌, ◌++◌, ◌^◌, ◌∷◌, [], Err, IfOk, IsTrue, OnOk, Some, codes, drop, length, slice_get, ℕ};
ghost use Rattle.std.specs.List.{list_all};
ghost use Rattle.calculus.specs.Problems.{symbol_fits};
ghost use Rattle.calculus.specs.StructureText.{symbol_head};
ghost use Rattle.calculus.specs.Syntax as tree;
ghost use Rattle.calculus.specs.declared.fault.StructureCause.{StructureCause};
ghost use Rattle.calculus.specs.declared.fault.StructureCause.TheVariants as cause;
ghost use Rattle.finite_model.specs.EntriesLeft.{IsFaultAmong, Leads};
ghost use Rattle.finite_model.specs.Reading.{AreEntriesRead, IsFaultOf, IsHeadRead, IsSlotAt, NoSlotAt, the_slot};
ghost use Rattle.finite_model.specs.Slots.{function_slots, predicate_slots, table_sizes, world_slots};
ghost use Rattle.finite_model.specs.StructureView.{the_lists};

use crate::fault::StructureRead;
use crate::head::Head;
use crate::slot::{Form, Slot};
use crate::slots::{function_slot, symbol_front, world_slot};
use crate::symbols::is_function;
use calculus::fault::StructureCause;
use cop_base::SymbolId;
use formula_core::Symbols;
use formula_text::{TextRead, write_bytes};
use logic_rules::Problem;
use std::alloc::{AllocError, AllocFailed, Global};
use text_lines::line_at;

/// The entries that are read, and the place behind their lines.
#[derive(Drop)]
pub struct Entries {
    pub lists: Vec<Vec<u8>>,
    pub place: usize,
}

// The entry of a slot whose line begins at a place, and the place after the line, which has this number.
fn read_slot(
    alloc: Global,
    bytes: &[u8],
    from: usize,
    slot: &Slot,
    number: u64,
) -> Result<(Vec<u8>, usize), StructureRead>
    requires { from ≤ length bytes.now }
    ensures ok { IfOk result (λ r. IsSlotAt bytes.now from r.1 (the_slot slot.now) r.0.items) }
    ensures line { (line : ℕ) (why : StructureCause) → result ≡ Err (StructureRead.Bad line why) → line ≡ number }
    ensures cause { (line : ℕ) (why : StructureCause) → result ≡ Err (StructureRead.Bad line why) → why ≡ cause.Line }
    ensures none { (line : ℕ) (why : StructureCause) → result ≡ Err (StructureRead.Bad line why)
        → NoSlotAt bytes.now from (the_slot slot.now) }
{
    let Some((line, end)) = line_at(bytes, from) else {
        return Err(StructureRead::Bad {
            line: number,
            cause: StructureCause::Line,
        });
    };
    match slot.read(alloc, line) {
        Ok(entry) => Ok((entry, end)),
        Err(TextRead::None) => Err(StructureRead::Bad {
            line: number,
            cause: StructureCause::Line,
        }),
        Err(TextRead::NoMemory) => Err(StructureRead::NoMemory),
    }
}

// Reads the next entry.
fn read_next(
    alloc: Global,
    bytes: &[u8],
    slot: &Slot,
    entries: &mut Entries,
) -> Result<(), StructureRead>
    requires { entries.old.place ≤ length bytes.now }
    ensures within { OnOk result (entries.new.place ≤ length bytes.now) }
    ensures ok { OnOk result (Leads bytes.now (the_slot slot.now ∷ []) entries.old [] entries.new) }
    ensures fault { (line : ℕ) (why : StructureCause) → result ≡ Err (StructureRead.Bad line why)
        → IsFaultAmong bytes.now (the_slot slot.now ∷ []) entries.old line why }
{
    let number = entries.lists.len() as u64 + 5;
    let (entry, end) = read_slot(alloc, bytes, entries.place, slot, number)?;
    entries.lists.push(entry)?;
    entries.place = end;
    Ok(())
}

// An entry for each world.
fn read_worlds(
    alloc: Global,
    bytes: &[u8],
    word: &[u8],
    after: &[u8],
    worlds: u8,
    form: Form,
    entries: &mut Entries,
) -> Result<(), StructureRead>
    requires { entries.old.place ≤ length bytes.now }
    ensures within { OnOk result (entries.new.place ≤ length bytes.now) }
    ensures ok { OnOk result (Leads bytes.now (world_slots word.now after.now form 0 worlds) entries.old [] entries.new) }
    ensures fault { (line : ℕ) (why : StructureCause) → result ≡ Err (StructureRead.Bad line why)
        → IsFaultAmong bytes.now (world_slots word.now after.now form 0 worlds) entries.old line why }
{
    for world in 0..worlds {
        let slot = world_slot(alloc, word, after, world, form)?;
        read_next(alloc, bytes, &slot, entries)?;
    }
    Ok(())
}

// The values of the symbol, if it is a function.
fn read_function(
    alloc: Global,
    bytes: &[u8],
    symbols: &Symbols,
    id: SymbolId,
    count: usize,
    elements: u8,
    entries: &mut Entries,
) -> Result<(), StructureRead>
    requires there { id.0 < length symbols.now }
    requires within { entries.old.place ≤ length bytes.now }
    ensures within { OnOk result (entries.new.place ≤ length bytes.now) }
    ensures ok { OnOk result ((s : tree.Symbol) → slice_get symbols.now id.0 ≡ Some s → count ≡ elements ^ s.arity
        → Leads bytes.now (function_slots elements (drop id.0 symbols.now)) entries.old
        (function_slots elements (drop (id.0 + 1) symbols.now)) entries.new) }
    ensures fault { (line : ℕ) (why : StructureCause) → result ≡ Err (StructureRead.Bad line why)
        → (s : tree.Symbol) → slice_get symbols.now id.0 ≡ Some s → count ≡ elements ^ s.arity
        → IsFaultAmong bytes.now (function_slots elements (drop id.0 symbols.now)) entries.old line why }
{
    if is_function(symbols, id) {
        let slot = function_slot(alloc, symbols, id, count, elements)?;
        read_next(alloc, bytes, &slot, entries)?;
        return Ok(());
    }
    Ok(())
}

fn read_functions(
    alloc: Global,
    bytes: &[u8],
    symbols: &Symbols,
    sizes: &[usize],
    elements: u8,
    entries: &mut Entries,
) -> Result<(), StructureRead>
    requires sizes { sizes.now ≡ table_sizes elements symbols.now }
    requires within { entries.old.place ≤ length bytes.now }
    ensures within { OnOk result (entries.new.place ≤ length bytes.now) }
    ensures ok { OnOk result (Leads bytes.now (function_slots elements symbols.now) entries.old [] entries.new) }
    ensures fault { (line : ℕ) (why : StructureCause) → result ≡ Err (StructureRead.Bad line why)
        → IsFaultAmong bytes.now (function_slots elements symbols.now) entries.old line why }
{
    for place in 0..symbols.len() {
        let count = sizes[place];
        let id = SymbolId(place as u32);
        read_function(alloc, bytes, symbols, id, count, elements, entries)?;
    }
    Ok(())
}

// The rows of a predicate symbol, one for each world.
fn read_rows(
    alloc: Global,
    bytes: &[u8],
    symbols: &Symbols,
    id: SymbolId,
    count: usize,
    worlds: u8,
    entries: &mut Entries,
) -> Result<(), StructureRead>
    requires there { id.0 < length symbols.now }
    requires within { entries.old.place ≤ length bytes.now }
    ensures within { OnOk result (entries.new.place ≤ length bytes.now) }
    ensures ok { OnOk result ((s : tree.Symbol) → slice_get symbols.now id.0 ≡ Some s
        → Leads bytes.now (world_slots (codes "predicate " ++ symbol_head s ++ codes " ") (codes " ") (Form.Digits count) 0 worlds)
        entries.old [] entries.new) }
    ensures fault { (line : ℕ) (why : StructureCause) → result ≡ Err (StructureRead.Bad line why)
        → (s : tree.Symbol) → slice_get symbols.now id.0 ≡ Some s
        → IsFaultAmong bytes.now (world_slots (codes "predicate " ++ symbol_head s ++ codes " ") (codes " ") (Form.Digits count) 0 worlds)
        entries.old line why }
{
    let mut front = symbol_front(alloc, b"predicate ", symbols, id)?;
    write_bytes(&mut front, b" ")?;
    let form = Form::Digits(count);
    read_worlds(alloc, bytes, front.as_slice(), b" ", worlds, form, entries)?;
    Ok(())
}

// The rows of the symbol, if it is a predicate.
fn read_predicate(
    alloc: Global,
    bytes: &[u8],
    symbols: &Symbols,
    id: SymbolId,
    count: usize,
    worlds: u8,
    entries: &mut Entries,
) -> Result<(), StructureRead>
    requires there { id.0 < length symbols.now }
    requires within { entries.old.place ≤ length bytes.now }
    ensures within { OnOk result (entries.new.place ≤ length bytes.now) }
    ensures ok { OnOk result ((elements : ℕ) (s : tree.Symbol) → slice_get symbols.now id.0 ≡ Some s → count ≡ elements ^ s.arity
        → Leads bytes.now (predicate_slots worlds elements (drop id.0 symbols.now)) entries.old
        (predicate_slots worlds elements (drop (id.0 + 1) symbols.now)) entries.new) }
    ensures fault { (line : ℕ) (why : StructureCause) → result ≡ Err (StructureRead.Bad line why)
        → (elements : ℕ) (s : tree.Symbol) → slice_get symbols.now id.0 ≡ Some s → count ≡ elements ^ s.arity
        → IsFaultAmong bytes.now (predicate_slots worlds elements (drop id.0 symbols.now)) entries.old line why }
{
    if is_function(symbols, id) {
        return Ok(());
    }
    read_rows(alloc, bytes, symbols, id, count, worlds, entries)?;
    Ok(())
}

fn read_predicates(
    alloc: Global,
    bytes: &[u8],
    symbols: &Symbols,
    sizes: &[usize],
    worlds: u8,
    elements: u8,
    entries: &mut Entries,
) -> Result<(), StructureRead>
    requires sizes { sizes.now ≡ table_sizes elements symbols.now }
    requires within { entries.old.place ≤ length bytes.now }
    ensures within { OnOk result (entries.new.place ≤ length bytes.now) }
    ensures ok { OnOk result (Leads bytes.now (predicate_slots worlds elements symbols.now) entries.old [] entries.new) }
    ensures fault { (line : ℕ) (why : StructureCause) → result ≡ Err (StructureRead.Bad line why)
        → IsFaultAmong bytes.now (predicate_slots worlds elements symbols.now) entries.old line why }
{
    for place in 0..symbols.len() {
        let count = sizes[place];
        let id = SymbolId(place as u32);
        read_predicate(alloc, bytes, symbols, id, count, worlds, entries)?;
    }
    Ok(())
}

/// The entries of the lines behind the head, the first of which is line 5: the successors of each world, the elements of each world, the
/// values of each function, and the truth values of each predicate at each world.
pub fn read_entries(
    alloc: Global,
    problem: &Problem,
    bytes: &[u8],
    head: &Head,
) -> Result<Entries, StructureRead>
    requires names { IsTrue (list_all symbol_fits problem.now.symbols) }
    requires head { IsHeadRead problem.now bytes.now head.now }
    ensures ok { IfOk result (λ r. AreEntriesRead problem.now bytes.now head.now.worlds head.now.elements (the_lists r.lists.items) r.place) }
    ensures fault { (line : ℕ) (why : StructureCause) → result ≡ Err (StructureRead.Bad line why)
        → IsFaultOf problem.now bytes.now line why }
{
    let symbols = problem.symbols();
    let (worlds, elements) = (head.worlds, head.elements);
    let sizes = head.sizes.as_slice();
    let mut entries = Entries {
        lists: Vec::new(alloc),
        place: head.end,
    };
    let successors = Form::Rising(worlds);
    read_worlds(
        alloc,
        bytes,
        b"relation ",
        b"",
        worlds,
        successors,
        &mut entries,
    )?;
    let domain = Form::Rising(elements);
    read_worlds(alloc, bytes, b"domain ", b"", worlds, domain, &mut entries)?;
    read_functions(alloc, bytes, symbols, sizes, elements, &mut entries)?;
    read_predicates(alloc, bytes, symbols, sizes, worlds, elements, &mut entries)?;
    Ok(entries)
}
