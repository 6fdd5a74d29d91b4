//! Terms over a table in rows. What is still to be put stands on a stack on the heap.

ghost use Rattle.std.specs.Prelude.{◌≡◌, ◌++◌, length, reverse, suc, IfOk, OnOk};
ghost use Rattle.formula_text.specs.Rows.{row_of};
ghost use Rattle.term_table.specs.Table.{the_table_term};
ghost use Rattle.term_table.specs.Walk.{rows_left};

use crate::table::{TableTerm, TermTable};
use cop_base::NoMemory;
use formula_text::RowItem;
use std::alloc::Global;

// How many there are. More than 2^32 terms fit no memory.
fn count_of(terms: &[TableTerm]) -> Result<u32, NoMemory>
    ensures { IfOk result (λ n. n ≡ length terms.now) }
{
    match u32::try_from(terms.len()) {
        Ok(n) => Ok(n),
        Err(_) => Err(NoMemory),
    }
}

// Puts terms on the stack, the first one last.
fn push_terms(stack: &mut Vec<TableTerm>, terms: &[TableTerm]) -> Result<(), NoMemory>
    ensures { OnOk result (stack.new.items ≡ stack.old.items ++ reverse terms.now) }
{
    let mut left = terms.len();
    while left > 0 {
        left -= 1;
        stack.push(terms[left])?;
    }
    Ok(())
}

// Puts the item of a term, and its arguments on the stack.
fn put_term(
    table: &TermTable,
    term: TableTerm,
    items: &mut Vec<RowItem>,
    stack: &mut Vec<TableTerm>,
) -> Result<(), NoMemory>
    ensures row { OnOk result (items.new.items ++ rows_left table.now stack.new.items
        ≡ items.old.items ++ (row_of (the_table_term table.now term) ++ rows_left table.now stack.old.items)) }
    ensures less { OnOk result (suc (length (rows_left table.now stack.new.items))
        ≡ length (row_of (the_table_term table.now term) ++ rows_left table.now stack.old.items)) }
{
    match term {
        TableTerm::Constant(symbol) => items.push(RowItem::Fun(symbol, 0))?,
        TableTerm::Fun(symbol, list) => {
            let terms = table.terms(list);
            let count = count_of(terms)?;
            items.push(RowItem::Fun(symbol, count))?;
            push_terms(stack, terms)?;
        }
        TableTerm::Eigen(number) => items.push(RowItem::Eigen(number))?,
        TableTerm::Spare(number) => items.push(RowItem::Spare(number))?,
    }
    Ok(())
}

/// The items of the row of a term.
pub fn items_of(alloc: Global, table: &TermTable, term: TableTerm) -> Result<Vec<RowItem>, NoMemory>
    ensures { IfOk result (λ items. items.items ≡ row_of (the_table_term table.now term)) }
{
    let mut items = Vec::new(alloc);
    let mut stack = Vec::new(alloc);
    stack.push(term)?;
    while let Some(next) = stack.pop() {
        put_term(table, next, &mut items, &mut stack)?;
    }
    Ok(items)
}
