//! Writing terms from rows. How many arguments of each open term are still to come stands on a stack on the heap, so that memory alone
//! bounds how deep a term may be.

ghost use Rattle.std.specs.Prelude.{◌≡◌, ◌++◌, List, ℕ, IsTrue, OnOk, OnErr};
ghost use Rattle.calculus.specs.DerivationText.{term_is_written};
ghost use Rattle.calculus.specs.Syntax as tree;
ghost use Rattle.calculus.specs.Text.{term_text};
ghost use Rattle.formula_text.specs.Extends.{Extends};
ghost use Rattle.formula_text.specs.Known.{term_is_known};
ghost use Rattle.formula_text.specs.RowWriting.{IsBetween, IsWriting, item_arity, item_is_known, item_text};
ghost use Rattle.formula_text.specs.declared.term_row.RowItem.{RowItem as Item};
ghost use Rattle.formula_text.specs.Single.{TermTextsDiffer};

use crate::append::{append_byte, append_bytes, append_number, undo_if_failed};
use crate::name::append_symbol;
use crate::term_row::{RowItem, TermRow};
use cop_base::NoMemory;
use formula_core::Symbols;
use std::alloc::Global;

fn append_item(out: &mut Vec<u8>, symbols: &Symbols, item: RowItem) -> Result<(), NoMemory>
    requires { IsTrue (item_is_known symbols.now item) }
    ensures ok { OnOk result (out.new.items ≡ out.old.items ++ item_text symbols.now item) }
    ensures extends { Extends out.old.items out.new.items }
{
    match item {
        RowItem::Var(_) => append_bytes(out, b"X0"),
        RowItem::Fun(f, _) => append_symbol(out, symbols.get(f)),
        RowItem::Eigen(n) => {
            append_bytes(out, b"$$e")?;
            append_number(out, u64::from(n))
        }
        RowItem::Spare(n) => {
            append_bytes(out, b"$$s")?;
            append_number(out, u64::from(n))
        }
    }
}

// How many arguments stand behind an item.
fn arity_of(item: RowItem) -> u32
    ensures { result ≡ item_arity item }
{
    match item {
        RowItem::Fun(_, count) => count,
        RowItem::Var(_) | RowItem::Eigen(_) | RowItem::Spare(_) => 0,
    }
}

// What stands between a name with so many arguments and the next name.
fn append_between(out: &mut Vec<u8>, left: &mut Vec<u32>, arity: u32) -> Result<(), NoMemory>
    ensures ok { (symbols : List tree.Symbol) (whole : List ℕ) (rest : List Item) → IsBetween symbols whole out.old.items left.old.items arity rest
        → OnOk result (IsWriting symbols whole out.new.items left.new.items rest) }
    ensures extends { Extends out.old.items out.new.items }
{
    if arity > 0 {
        left.push(arity - 1)?;
        append_byte(out, b'(')?;
        return Ok(());
    }
    while let Some(count) = left.pop() {
        if count > 0 {
            left.push_reserved(count - 1);
            append_byte(out, b',')?;
            return Ok(());
        }
        append_byte(out, b')')?;
    }
    Ok(())
}

fn append_row(
    alloc: Global,
    out: &mut Vec<u8>,
    symbols: &Symbols,
    row: &TermRow,
) -> Result<(), NoMemory>
    requires { IsTrue (term_is_known symbols.now row.now) }
    ensures ok { OnOk result (out.new.items ≡ out.old.items ++ term_text symbols.now 0 row.now) }
    ensures extends { Extends out.old.items out.new.items }
{
    let mut left = Vec::new(alloc);
    for item in row.items() {
        append_item(out, symbols, *item)?;
        append_between(out, &mut left, arity_of(*item))?;
    }
    Ok(())
}

/// Appends a term without variables. Memory alone bounds how deep it may be.
#[tactic(auto, using(crate::proofs::Extending::extending, crate::proofs::Knowing::knowing))]
pub fn write_row(
    alloc: Global,
    out: &mut Vec<u8>,
    symbols: &Symbols,
    row: &TermRow,
) -> Result<(), NoMemory>
    requires { IsTrue (term_is_written symbols.now row.now) }
    ensures ok { OnOk result (out.new.items ≡ out.old.items ++ term_text symbols.now 0 row.now) }
    ensures err { OnErr result (out.new.items ≡ out.old.items) }
    ensures apart { TermTextsDiffer symbols.now }
{
    let kept = out.len();
    let appended = append_row(alloc, out, symbols, row);
    undo_if_failed(out, kept, appended)
}
