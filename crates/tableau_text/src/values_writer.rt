//! Writing lists of values. What is left to be written stands on a stack on the heap, so that memory alone bounds the depth.

ghost use Rattle.std.specs.Prelude.{◌≡◌, ◌++◌, ◌∷◌, [], List, decimal, IsTrue, OnOk};
ghost use Rattle.calculus.specs.Ground.{marks_tree, values_tree};
ghost use Rattle.calculus.specs.Lists.{g_terms_tree};
ghost use Rattle.calculus.specs.TableauText.{ground_args_text, grounds_are_written, ground_is_written, ground_text, ground_mark_is_written, ground_mark_text, marks_are_written, marks_text, values_are_written, values_text};
ghost use Rattle.formula_core.specs.declared.ground.GroundTerm.TheVariants as terms_of;
ghost use Rattle.formula_core.specs.GroundLists.{GroundList, the_g_term, the_mark, the_marks, the_terms, the_value, the_values};
ghost use Rattle.tableau_text.specs.Items.{item_text, of_value};
ghost use Rattle.tableau_text.specs.Points.{is_good};
ghost use Rattle.tableau_text.specs.ItemView.{the_item};
ghost use Rattle.tableau_text.specs.Pieces.{Wrote, piece_is_written, piece_text};
ghost use Rattle.tableau_text.specs.declared.piece.Piece.TheVariants as pieces;

use crate::item::TableItem;
use crate::piece::Piece;
use cop_base::{NoMemory, SymbolId};
use formula_core::{
    GroundLabel, GroundMark, GroundTable, GroundTerm, GroundTerms, Symbols, Value, Values,
};
use formula_text::{write_bytes, write_name, write_number};
use std::alloc::Global;

fn item_of(value: Value) -> TableItem
    ensures { (ls : List GroundList) → the_item ls result ≡ of_value (the_value ls value) }
{
    match value {
        Value::Term(term) => TableItem::Term(term),
        Value::Steps(label) => TableItem::Steps(label),
    }
}

// `$$`, a letter and a number.
fn write_numbered(out: &mut Vec<u8>, front: &[u8], number: u32) -> Result<(), NoMemory>
    ensures { OnOk result (out.new.items ≡ out.old.items ++ (front.now ++ decimal number)) }
{
    write_bytes(out, front)?;
    write_number(out, u64::from(number))?;
    Ok(())
}

// Puts the rest of a list, and an item before it, on the stack.
fn push_two(stack: &mut Vec<Piece>, rest: Piece, item: TableItem) -> Result<(), NoMemory>
    ensures { OnOk result (stack.new.items ≡ (stack.old.items ++ rest ∷ []) ++ pieces.Item item ∷ []) }
{
    stack.push(rest)?;
    stack.push(Piece::Item(item))?;
    Ok(())
}

// The arguments, in round brackets where there are any.
#[tactic(auto, using(crate::proofs::WriteLaws::opening_pieces))]
fn open_args(
    out: &mut Vec<u8>,
    symbols: &Symbols,
    table: &GroundTable,
    stack: &mut Vec<Piece>,
    args: GroundTerms,
) -> Result<(), NoMemory>
    requires { IsTrue (grounds_are_written symbols.now (g_terms_tree (the_terms table.now args))) }
    ensures { OnOk result (Wrote symbols.now table.now (ground_args_text symbols.now (g_terms_tree (the_terms table.now args))) out.old.items out.new.items stack.old.items stack.new.items) }
{
    match table.terms(args).split_first() {
        Some((first, _)) => {
            write_bytes(out, b"(")?;
            push_two(stack, Piece::Args(args, 1), TableItem::Term(*first))?;
            Ok(())
        }
        None => Ok(()),
    }
}

#[tactic(auto, using(crate::proofs::WriteLaws::opening_pieces))]
fn open_marks(
    out: &mut Vec<u8>,
    symbols: &Symbols,
    table: &GroundTable,
    stack: &mut Vec<Piece>,
    label: GroundLabel,
) -> Result<(), NoMemory>
    requires { IsTrue (marks_are_written symbols.now (marks_tree (the_marks table.now label))) }
    ensures { OnOk result (Wrote symbols.now table.now (marks_text symbols.now (marks_tree (the_marks table.now label))) out.old.items out.new.items stack.old.items stack.new.items) }
{
    match table.marks(label).split_first() {
        Some((first, _)) => {
            write_bytes(out, b"[")?;
            push_two(stack, Piece::Marks(label, 1), TableItem::Mark(*first))?;
            Ok(())
        }
        None => {
            write_bytes(out, b"[]")?;
            Ok(())
        }
    }
}

#[tactic(auto, using(crate::proofs::WriteLaws::opening_pieces))]
fn open_values(
    out: &mut Vec<u8>,
    symbols: &Symbols,
    table: &GroundTable,
    stack: &mut Vec<Piece>,
    list: Values,
) -> Result<(), NoMemory>
    requires { IsTrue (values_are_written symbols.now (values_tree (the_values table.now list))) }
    ensures { OnOk result (Wrote symbols.now table.now (values_text symbols.now (values_tree (the_values table.now list))) out.old.items out.new.items stack.old.items stack.new.items) }
{
    match table.values(list).split_first() {
        Some((first, _)) => {
            write_bytes(out, b"{")?;
            push_two(stack, Piece::Values(list, 1), item_of(*first))?;
            Ok(())
        }
        None => {
            write_bytes(out, b"{}")?;
            Ok(())
        }
    }
}

#[tactic(auto, using(crate::proofs::PieceLaws::wrote))]
fn write_function(
    out: &mut Vec<u8>,
    symbols: &Symbols,
    table: &GroundTable,
    stack: &mut Vec<Piece>,
    f: SymbolId,
    args: GroundTerms,
) -> Result<(), NoMemory>
    requires { IsTrue (ground_is_written symbols.now (the_g_term table.now (terms_of.Fun f args))) }
    ensures { OnOk result (Wrote symbols.now table.now (ground_text symbols.now (the_g_term table.now (terms_of.Fun f args))) out.old.items out.new.items stack.old.items stack.new.items) }
{
    write_name(out, symbols, f)?;
    open_args(out, symbols, table, stack, args)?;
    Ok(())
}

#[tactic(auto, using(crate::proofs::PieceLaws::wrote))]
fn write_own(
    out: &mut Vec<u8>,
    symbols: &Symbols,
    table: &GroundTable,
    stack: &mut Vec<Piece>,
    k: u32,
    label: GroundLabel,
) -> Result<(), NoMemory>
    requires { IsTrue (ground_is_written symbols.now (the_g_term table.now (terms_of.Own k label))) }
    ensures { OnOk result (Wrote symbols.now table.now (ground_text symbols.now (the_g_term table.now (terms_of.Own k label))) out.old.items out.new.items stack.old.items stack.new.items) }
{
    write_numbered(out, b"$$s", k)?;
    write_bytes(out, b"@")?;
    open_marks(out, symbols, table, stack, label)?;
    Ok(())
}

// A name with a number, and a list of values.
#[tactic(auto, using(crate::proofs::PieceLaws::wrote))]
fn write_made(
    out: &mut Vec<u8>,
    symbols: &Symbols,
    table: &GroundTable,
    stack: &mut Vec<Piece>,
    front: &[u8],
    number: u32,
    list: Values,
) -> Result<(), NoMemory>
    requires { IsTrue (values_are_written symbols.now (values_tree (the_values table.now list))) }
    ensures { OnOk result (Wrote symbols.now table.now ((front.now ++ decimal number) ++ values_text symbols.now (values_tree (the_values table.now list))) out.old.items out.new.items stack.old.items stack.new.items) }
{
    write_numbered(out, front, number)?;
    open_values(out, symbols, table, stack, list)?;
    Ok(())
}

#[tactic(auto, using(crate::proofs::PieceLaws::wrote))]
fn write_term(
    out: &mut Vec<u8>,
    symbols: &Symbols,
    table: &GroundTable,
    stack: &mut Vec<Piece>,
    term: GroundTerm,
) -> Result<(), NoMemory>
    requires { IsTrue (ground_is_written symbols.now (the_g_term table.now term)) }
    ensures { OnOk result (Wrote symbols.now table.now (ground_text symbols.now (the_g_term table.now term)) out.old.items out.new.items stack.old.items stack.new.items) }
{
    match term {
        GroundTerm::Fun(f, args) => write_function(out, symbols, table, stack, f, args),
        GroundTerm::Eigen(p, list) => write_made(out, symbols, table, stack, b"$$e", p.0, list),
        GroundTerm::Common(k) => write_numbered(out, b"$$s", k),
        GroundTerm::Own(k, label) => write_own(out, symbols, table, stack, k, label),
    }
}

#[tactic(auto, using(crate::proofs::PieceLaws::wrote))]
fn write_mark(
    out: &mut Vec<u8>,
    symbols: &Symbols,
    table: &GroundTable,
    stack: &mut Vec<Piece>,
    mark: GroundMark,
) -> Result<(), NoMemory>
    requires { IsTrue (ground_mark_is_written symbols.now (the_mark table.now mark)) }
    ensures { OnOk result (Wrote symbols.now table.now (ground_mark_text symbols.now (the_mark table.now mark)) out.old.items out.new.items stack.old.items stack.new.items) }
{
    match mark {
        GroundMark::New(p, list) => write_made(out, symbols, table, stack, b"$$c", p.0, list),
        GroundMark::Spare(k) => write_numbered(out, b"$$d", k),
    }
}

fn write_item(
    out: &mut Vec<u8>,
    symbols: &Symbols,
    table: &GroundTable,
    stack: &mut Vec<Piece>,
    item: TableItem,
) -> Result<(), NoMemory>
    requires { IsTrue (is_good symbols.now (the_item table.now item)) }
    ensures { OnOk result (Wrote symbols.now table.now (item_text symbols.now (the_item table.now item)) out.old.items out.new.items stack.old.items stack.new.items) }
{
    match item {
        TableItem::Term(term) => write_term(out, symbols, table, stack, term),
        TableItem::Mark(mark) => write_mark(out, symbols, table, stack, mark),
        TableItem::Steps(label) => open_marks(out, symbols, table, stack, label),
        TableItem::Values(values) => open_values(out, symbols, table, stack, values),
    }
}

// The rest of the arguments from a place on.
#[tactic(auto, using(crate::proofs::WriteLaws::more_pieces))]
fn write_args(
    out: &mut Vec<u8>,
    symbols: &Symbols,
    table: &GroundTable,
    stack: &mut Vec<Piece>,
    args: GroundTerms,
    from: usize,
) -> Result<(), NoMemory>
    requires { IsTrue (piece_is_written symbols.now table.now (pieces.Args args from)) }
    ensures { OnOk result (Wrote symbols.now table.now (piece_text symbols.now table.now (pieces.Args args from)) out.old.items out.new.items stack.old.items stack.new.items) }
{
    let terms = table.terms(args);
    if from < terms.len() {
        write_bytes(out, b",")?;
        push_two(
            stack,
            Piece::Args(args, from + 1),
            TableItem::Term(terms[from]),
        )?;
        return Ok(());
    }
    write_bytes(out, b")")?;
    Ok(())
}

#[tactic(auto, using(crate::proofs::WriteLaws::more_pieces))]
fn write_marks(
    out: &mut Vec<u8>,
    symbols: &Symbols,
    table: &GroundTable,
    stack: &mut Vec<Piece>,
    label: GroundLabel,
    from: usize,
) -> Result<(), NoMemory>
    requires { IsTrue (piece_is_written symbols.now table.now (pieces.Marks label from)) }
    ensures { OnOk result (Wrote symbols.now table.now (piece_text symbols.now table.now (pieces.Marks label from)) out.old.items out.new.items stack.old.items stack.new.items) }
{
    let marks = table.marks(label);
    if from < marks.len() {
        write_bytes(out, b",")?;
        push_two(
            stack,
            Piece::Marks(label, from + 1),
            TableItem::Mark(marks[from]),
        )?;
        return Ok(());
    }
    write_bytes(out, b"]")?;
    Ok(())
}

#[tactic(auto, using(crate::proofs::WriteLaws::more_pieces))]
fn write_more(
    out: &mut Vec<u8>,
    symbols: &Symbols,
    table: &GroundTable,
    stack: &mut Vec<Piece>,
    list: Values,
    from: usize,
) -> Result<(), NoMemory>
    requires { IsTrue (piece_is_written symbols.now table.now (pieces.Values list from)) }
    ensures { OnOk result (Wrote symbols.now table.now (piece_text symbols.now table.now (pieces.Values list from)) out.old.items out.new.items stack.old.items stack.new.items) }
{
    let values = table.values(list);
    if from < values.len() {
        write_bytes(out, b",")?;
        push_two(stack, Piece::Values(list, from + 1), item_of(values[from]))?;
        return Ok(());
    }
    write_bytes(out, b"}")?;
    Ok(())
}

// Writes a piece, or its first part, and puts what is left of it on the stack.
fn write_piece(
    out: &mut Vec<u8>,
    symbols: &Symbols,
    table: &GroundTable,
    stack: &mut Vec<Piece>,
    piece: Piece,
) -> Result<(), NoMemory>
    requires { IsTrue (piece_is_written symbols.now table.now piece) }
    ensures { OnOk result (Wrote symbols.now table.now (piece_text symbols.now table.now piece) out.old.items out.new.items stack.old.items stack.new.items) }
{
    match piece {
        Piece::Item(item) => write_item(out, symbols, table, stack, item),
        Piece::Args(args, from) => write_args(out, symbols, table, stack, args, from),
        Piece::Marks(label, from) => write_marks(out, symbols, table, stack, label, from),
        Piece::Values(list, from) => write_more(out, symbols, table, stack, list, from),
    }
}

/// Appends a list of values. Where memory ends a part of it may be left.
pub fn write_values(
    alloc: Global,
    out: &mut Vec<u8>,
    symbols: &Symbols,
    table: &GroundTable,
    values: Values,
) -> Result<(), NoMemory>
    requires { IsTrue (values_are_written symbols.now (values_tree (the_values table.now values))) }
    ensures { OnOk result (out.new.items ≡ out.old.items ++ values_text symbols.now (values_tree (the_values table.now values))) }
{
    let mut stack = Vec::new(alloc);
    stack.push(Piece::Item(TableItem::Values(values)))?;
    while let Some(piece) = stack.pop() {
        write_piece(out, symbols, table, &mut stack, piece)?;
    }
    Ok(())
}
