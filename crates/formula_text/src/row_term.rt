//! Rows of terms as trees.

ghost use Rattle.std.specs.Prelude.{◌≡◌, ◌∷◌, List, drop, take, IfOk, OnOk};
ghost use Rattle.formula_core.specs.TermView.{the_term};
ghost use Rattle.formula_text.specs.Rows.{terms_in};
ghost use Rattle.formula_text.specs.Standing.{standing};

use crate::term_row::{RowItem, TermRow};
use cop_base::NoMemory;
use formula_core::{Term, Terms};
use std::alloc::Global;
use std::cmp::max;

// How many levels a tree may have: it is copied, compared and let go by calls that go down its
// levels, so this keeps them within the stack of the machine.
const MOST_LEVELS: u32 = 20_001;

// Takes so many terms from the end, the last one first.
fn take_args(alloc: Global, stack: &mut Vec<Term>, count: u32) -> Result<Terms, NoMemory>
    ensures args { IfOk result (λ args. args ≡ take count (standing stack.old.items)) }
    ensures left { OnOk result (standing stack.new.items ≡ drop count (standing stack.old.items)) }
{
    let mut args = Terms::new(alloc);
    let mut left = count;
    while left > 0 {
        left -= 1;
        if let Some(term) = stack.pop() {
            args.push(term)?;
        }
    }
    Ok(args)
}

// Puts the term of a symbol, which takes the last terms for its arguments, or a leaf.
fn put_item(alloc: Global, stack: &mut Vec<Term>, item: RowItem) -> Result<(), NoMemory>
    ensures { (xs : List RowItem) → standing stack.old.items ≡ terms_in xs
        → OnOk result (standing stack.new.items ≡ terms_in (item ∷ xs)) }
{
    let term = match item {
        RowItem::Var(k) => Term::Var(k),
        RowItem::Fun(f, count) => {
            let args = take_args(alloc, stack, count)?;
            Term::Fun(f, args)
        }
        RowItem::Eigen(n) => Term::Eigen(n),
        RowItem::Spare(n) => Term::Spare(n),
    };
    stack.push(term)?;
    Ok(())
}

// Takes the levels of so many terms from the end, and gives the greatest number.
fn take_levels(levels: &mut Vec<u32>, count: u32) -> u32 {
    let mut most = 0;
    for _ in 0..count {
        if let Some(below) = levels.pop() {
            most = max(most, below);
        }
    }
    most
}

// Puts the levels of the term of a symbol, which stands over the last terms, or of a leaf.
fn put_levels(levels: &mut Vec<u32>, item: RowItem) -> Result<(), NoMemory> {
    let below = match item {
        RowItem::Fun(_, count) => take_levels(levels, count),
        RowItem::Var(_) | RowItem::Eigen(_) | RowItem::Spare(_) => 0,
    };
    if below >= MOST_LEVELS {
        return Err(NoMemory);
    }
    levels.push(below + 1)?;
    Ok(())
}

// There is no memory for a term of too many levels.
fn limit_levels(alloc: Global, row: &TermRow) -> Result<(), NoMemory> {
    let items = row.items();
    let mut levels = Vec::new(alloc);
    let mut left = items.len();
    while left > 0 {
        left -= 1;
        put_levels(&mut levels, items[left])?;
    }
    Ok(())
}

/// The term of a row. For a term of more than 20,001 levels the answer is that there is no memory.
pub fn term_of(alloc: Global, row: &TermRow) -> Result<Term, NoMemory>
    ensures { IfOk result (λ t. the_term t ≡ row.now) }
{
    limit_levels(alloc, row)?;
    let items = row.items();
    let mut stack = Vec::new(alloc);
    let mut left = items.len();
    while left > 0 {
        left -= 1;
        put_item(alloc, &mut stack, items[left])?;
    }
    match stack.pop() {
        Some(term) => Ok(term),
        None => Ok(Term::Var(0)),
    }
}
