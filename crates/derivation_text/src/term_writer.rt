//! Writing terms straight from the table that they stand over. What comes behind the term at hand stands on a stack on the heap, so that
//! memory alone bounds how deep a term may be.

ghost use Rattle.std.specs.Prelude.{◌≡◌, ◌++◌, ◌∷◌, [], ◌<◌, ◌-◌, ◌^◌, List, length, map, drop, reverse, replicate, decimal, IsTrue, IfOk, OnOk};
ghost use Rattle.calculus.specs.DerivationText.{term_is_written, terms_are_written};
ghost use Rattle.calculus.specs.Lists.{terms_tree};
ghost use Rattle.calculus.specs.Syntax as tree;
ghost use Rattle.calculus.specs.Text.{args_text, term_text};
ghost use Rattle.derivation_text.specs.TermWriting.{IsBefore, Wrote, are_written, args_over, head_is_named, head_text, pieces_text};
ghost use Rattle.derivation_text.specs.declared.term_writer.Piece.TheVariants.{Further};
ghost use Rattle.term_table.specs.Table.{the_table_term};

use cop_base::NoMemory;
use formula_core::Symbols;
use formula_text::{write_bytes, write_name, write_number};
use std::alloc::Global;
use term_table::{TableTerm, TermTable};

// What comes behind a term: a comma and a further argument, or so many closing brackets. Brackets behind one another are one piece, so
// that a term takes no room on the stack for the last arguments that it stands in.
#[derive(Clone, Copy)]
pub enum Piece {
    Further(TableTerm),
    Close(u32),
}

fn write_numbered(out: &mut Vec<u8>, letters: &[u8], number: u32) -> Result<(), NoMemory>
    ensures { OnOk result (out.new.items ≡ out.old.items ++ (letters.now ++ decimal number)) }
{
    write_bytes(out, letters)?;
    write_number(out, u64::from(number))
}

// A term without its arguments.
fn write_head(out: &mut Vec<u8>, symbols: &Symbols, term: TableTerm) -> Result<(), NoMemory>
    requires { IsTrue (head_is_named symbols.now term) }
    ensures { OnOk result (out.new.items ≡ out.old.items ++ head_text symbols.now term) }
{
    match term {
        TableTerm::Constant(symbol) => write_name(out, symbols, symbol),
        TableTerm::Fun(symbol, _) => write_name(out, symbols, symbol),
        TableTerm::Eigen(number) => write_numbered(out, b"$$e", number),
        TableTerm::Spare(number) => write_numbered(out, b"$$s", number),
    }
}

fn arguments_of(table: &TermTable, term: TableTerm) -> &[TableTerm]
    ensures { map (the_table_term table.now) result.now ≡ args_over table.now term }
{
    match term {
        TableTerm::Fun(_, list) => table.terms(list),
        TableTerm::Constant(_) | TableTerm::Eigen(_) | TableTerm::Spare(_) => &[],
    }
}

// Takes off the closing brackets that come first, and tells how many these are.
fn take_closers(stack: &mut Vec<Piece>) -> u32
    ensures count { result < 2 ^ 32 - 1 }
    ensures text { (symbols : List tree.Symbol) (ls : List (List tree.Term)) → pieces_text symbols ls stack.old.items ≡ replicate result 41 ++ pieces_text symbols ls stack.new.items }
    ensures written { (symbols : List tree.Symbol) (ls : List (List tree.Term)) → IsTrue (are_written symbols ls stack.old.items) → IsTrue (are_written symbols ls stack.new.items) }
{
    let Some(piece) = stack.pop() else {
        return 0;
    };
    if let Piece::Close(count) = piece {
        if count < u32::MAX {
            return count;
        }
    }
    stack.push_reserved(piece);
    0
}

// Puts a closing bracket in front of what is on the stack.
fn push_close(stack: &mut Vec<Piece>) -> Result<(), NoMemory>
    ensures { (symbols : List tree.Symbol) (ls : List (List tree.Term)) → OnOk result (IsBefore symbols ls (41 ∷ []) stack.old.items stack.new.items) }
{
    let count = take_closers(stack);
    stack.push(Piece::Close(count + 1))?;
    Ok(())
}

// Puts the arguments behind the first one on the stack, the second one last.
fn push_further(stack: &mut Vec<Piece>, terms: &[TableTerm]) -> Result<(), NoMemory>
    requires { 0 < length terms.now }
    ensures { OnOk result (stack.new.items ≡ stack.old.items ++ reverse (map Further (drop 1 terms.now))) }
{
    let mut left = terms.len();
    while left > 1 {
        left -= 1;
        stack.push(Piece::Further(terms[left]))?;
    }
    Ok(())
}

fn write_closers(out: &mut Vec<u8>, count: u32) -> Result<(), NoMemory>
    ensures { OnOk result (out.new.items ≡ out.old.items ++ replicate count 41) }
{
    out.resize(out.len() + count as usize, b')')?;
    Ok(())
}

// What comes behind a term, up to the next one, if one is left.
fn write_behind(out: &mut Vec<u8>, stack: &mut Vec<Piece>) -> Result<Option<TableTerm>, NoMemory>
    ensures { (symbols : List tree.Symbol) (ls : List (List tree.Term)) → IfOk result (Wrote symbols ls [] out.old.items out.new.items stack.old.items stack.new.items) }
{
    while let Some(piece) = stack.pop() {
        match piece {
            Piece::Further(term) => {
                out.push(b',')?;
                return Ok(Some(term));
            }
            Piece::Close(count) => write_closers(out, count)?,
        }
    }
    Ok(None)
}

// Opens a list of arguments, and tells the first of them.
fn open_list(
    out: &mut Vec<u8>,
    stack: &mut Vec<Piece>,
    terms: &[TableTerm],
) -> Result<Option<TableTerm>, NoMemory>
    requires { 0 < length terms.now }
    ensures { (symbols : List tree.Symbol) (ls : List (List tree.Term)) → let args = terms_tree (map (the_table_term ls) terms.now) in IsTrue (terms_are_written symbols args)
        → IfOk result (Wrote symbols ls (args_text symbols 0 args) out.old.items out.new.items stack.old.items stack.new.items) }
{
    out.push(b'(')?;
    push_close(stack)?;
    push_further(stack, terms)?;
    Ok(Some(terms[0]))
}

// Writes a term up to the one that comes next.
fn write_next(
    out: &mut Vec<u8>,
    stack: &mut Vec<Piece>,
    symbols: &Symbols,
    table: &TermTable,
    term: TableTerm,
) -> Result<Option<TableTerm>, NoMemory>
    requires { IsTrue (term_is_written symbols.now (the_table_term table.now term)) }
    ensures { IfOk result (Wrote symbols.now table.now (term_text symbols.now 0 (the_table_term table.now term)) out.old.items out.new.items stack.old.items stack.new.items) }
{
    write_head(out, symbols, term)?;
    let terms = arguments_of(table, term);
    if terms.is_empty() {
        let next = write_behind(out, stack)?;
        return Ok(next);
    }
    let next = open_list(out, stack, terms)?;
    Ok(next)
}

/// Appends the text of a term over a table.
pub fn write_table_term(
    alloc: Global,
    out: &mut Vec<u8>,
    symbols: &Symbols,
    table: &TermTable,
    term: TableTerm,
) -> Result<(), NoMemory>
    requires { IsTrue (term_is_written symbols.now (the_table_term table.now term)) }
    ensures { OnOk result (out.new.items ≡ out.old.items ++ term_text symbols.now 0 (the_table_term table.now term)) }
{
    let mut stack = Vec::new(alloc);
    let mut next = Some(term);
    while let Some(at_hand) = next {
        next = write_next(out, &mut stack, symbols, table, at_hand)?;
    }
    Ok(())
}
