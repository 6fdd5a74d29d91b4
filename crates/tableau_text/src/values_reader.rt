//! Reading lists of values. The lists that are open stand on a stack on the heap, so that memory alone bounds their depth.

ghost use Rattle.std.specs.Prelude.{◌≡◌, ◌<◌, ◌≤◌, ◌∷◌, [], ℕ, List, length, Err, IsNone, IfSome, IfOk, IsTrue};
ghost use Rattle.std.specs.List.{list_all};
ghost use Rattle.calculus.specs.Ground as tree;
ghost use Rattle.calculus.specs.Ground.{values_tree};
ghost use Rattle.calculus.specs.Problems.{are_distinct, symbol_fits};
ghost use Rattle.formula_core.specs.GroundLists.{GroundList, the_values, AreNormalValues, IsGrown};
ghost use Rattle.tableau_text.specs.Items as items;
ghost use Rattle.tableau_text.specs.Items.{of_root};
ghost use Rattle.tableau_text.specs.declared.item.TableItem.TheVariants as item_of;
ghost use Rattle.tableau_text.specs.Points.{Leads, NoneFrom, IsValuesText, IsWhole, ahead, behind, inside};
ghost use Rattle.tableau_text.specs.ItemView.{IsNormalItem, the_item};
ghost use Rattle.tableau_text.specs.OpenView.{AreNormalLists, IsNew, IsNormalNext, frames, the_head, the_point};

use crate::begun::{Begun, begin};
use crate::bytes::after_byte;
use crate::item::TableItem;
use crate::open_list::{OpenList, close, closing, may_be_empty, with_item};
use formula_core::{GroundTable, Symbols, Values};
use formula_text::TextRead;
use std::alloc::Global;

/// What stands at a place behind an item: a further item, or the outermost list is whole.
#[derive(Clone, Copy)]
pub enum Next {
    Further,
    Whole(TableItem),
}

// Puts an item that stands before the text in its list, and closes the lists that end behind it.
#[tactic(auto, using(crate::proofs::StepLaws::putting))]
fn put_item<'a>(
    symbols: &Symbols,
    table: &mut GroundTable,
    stack: &mut Vec<OpenList>,
    given: TableItem,
    text: &'a [u8],
) -> Result<(Next, &'a [u8]), TextRead>
    requires distinct { IsTrue (are_distinct symbols.now) }
    requires lists { AreNormalLists table.old stack.old.items }
    requires normal { IsNormalItem table.old given }
    ensures ok { IfOk result (λ r. Leads symbols.now (behind (frames table.old stack.old.items) (the_item table.old given) text.now) (the_point table.new stack.new.items r.0 r.1.now)) }
    ensures normal { IfOk result (λ r. IsNormalNext table.new stack.new.items r.0) }
    ensures grown { IfOk result (λ _. IsGrown table.old table.new) }
    ensures rest { IfOk result (λ r. length r.1.now ≤ length text.now) }
    ensures none { result ≡ Err TextRead.None → NoneFrom symbols.now (behind (frames table.old stack.old.items) (the_item table.old given) text.now) }
{
    let _called_for_its_bound = table.len();
    let mut item = given;
    let mut rest = text;
    while let Some(last) = stack.pop() {
        let list = with_item(last, item)?;
        if let Some(after) = after_byte(rest, b',') {
            stack.push_reserved(list);
            return Ok((Next::Further, after));
        }
        let Some(after) = after_byte(rest, closing(&list)) else {
            return Err(TextRead::None);
        };
        rest = after;
        let closed = close(symbols, table, list)?;
        item = closed;
    }
    Ok((Next::Whole(item), rest))
}

// What follows the closing bracket of a list that ends at once.
fn after_empty<'a>(list: &OpenList, text: &'a [u8]) -> Option<&'a [u8]>
    ensures some { IfSome result (λ r. IsTrue (items.may_be_empty (the_head list.now)) × (text.now ≡ items.closing (the_head list.now) ∷ r.now)) }
    ensures none { IsNone result → IsTrue (items.may_be_empty (the_head list.now)) → (r : List ℕ) → ¬ (text.now ≡ items.closing (the_head list.now) ∷ r) }
{
    if !may_be_empty(list) {
        return None;
    }
    after_byte(text, closing(list))
}

// Opens a list whose opening bracket stands before the text, or closes it at once.
#[tactic(auto, using(crate::proofs::StepLaws::opening_lists))]
fn enter_list<'a>(
    symbols: &Symbols,
    table: &mut GroundTable,
    stack: &mut Vec<OpenList>,
    list: OpenList,
    text: &'a [u8],
) -> Result<(Next, &'a [u8]), TextRead>
    requires distinct { IsTrue (are_distinct symbols.now) }
    requires fits { IsTrue (list_all symbol_fits symbols.now) }
    requires lists { AreNormalLists table.old stack.old.items }
    requires fresh { IsNew list }
    ensures ok { IfOk result (λ r. Leads symbols.now (inside (frames table.old stack.old.items) (the_head list) text.now) (the_point table.new stack.new.items r.0 r.1.now)) }
    ensures normal { IfOk result (λ r. IsNormalNext table.new stack.new.items r.0) }
    ensures grown { IfOk result (λ _. IsGrown table.old table.new) }
    ensures rest { IfOk result (λ r. length r.1.now ≤ length text.now) }
    ensures none { result ≡ Err TextRead.None → NoneFrom symbols.now (inside (frames table.old stack.old.items) (the_head list) text.now) }
{
    let _called_for_its_bound = table.len();
    let Some(after) = after_empty(&list, text) else {
        stack.push(list)?;
        return Ok((Next::Further, text));
    };
    let item = close(symbols, table, list)?;
    let found = put_item(symbols, table, stack, item, after)?;
    Ok(found)
}

// Reads an item as far as its opening bracket, or with the lists that end behind it.
fn read_on<'a>(
    alloc: Global,
    symbols: &Symbols,
    table: &mut GroundTable,
    stack: &mut Vec<OpenList>,
    text: &'a [u8],
) -> Result<(Next, &'a [u8]), TextRead>
    requires distinct { IsTrue (are_distinct symbols.now) }
    requires fits { IsTrue (list_all symbol_fits symbols.now) }
    requires lists { AreNormalLists table.old stack.old.items }
    ensures ok { IfOk result (λ r. Leads symbols.now (ahead (frames table.old stack.old.items) text.now) (the_point table.new stack.new.items r.0 r.1.now)) }
    ensures normal { IfOk result (λ r. IsNormalNext table.new stack.new.items r.0) }
    ensures grown { IfOk result (λ _. IsGrown table.old table.new) }
    ensures rest { IfOk result (λ r. length r.1.now < length text.now) }
    ensures none { result ≡ Err TextRead.None → NoneFrom symbols.now (ahead (frames table.old stack.old.items) text.now) }
{
    let (begun, rest) = begin(alloc, symbols, table, text)?;
    match begun {
        Begun::Leaf(item) => {
            let found = put_item(symbols, table, stack, item, rest)?;
            Ok(found)
        }
        Begun::Open(list) => {
            let found = enter_list(symbols, table, stack, list, rest)?;
            Ok(found)
        }
    }
}

// The list that is the whole text.
fn whole_values(item: TableItem, text: &[u8]) -> Result<Values, TextRead>
    ensures ok { IfOk result (λ n. (item ≡ item_of.Values n) × (text.now ≡ [])) }
    ensures none { result ≡ Err TextRead.None → (ls : List GroundList) → ¬ IsWhole (the_item ls item) text.now }
{
    match item {
        TableItem::Values(values) => if text.is_empty() {
            Ok(values)
        } else {
            Err(TextRead::None)
        },
        TableItem::Term(_) => Err(TextRead::None),
        TableItem::Mark(_) => Err(TextRead::None),
        TableItem::Steps(_) => Err(TextRead::None),
    }
}

// The point behind an opening bracket of a list that is the whole text, or behind the items that are read of it.
#[tactic(auto, using(crate::proofs::StepLaws::anew))]
fn read_inside<'a>(
    alloc: Global,
    symbols: &Symbols,
    table: &mut GroundTable,
    text: &'a [u8],
) -> Result<(TableItem, &'a [u8]), TextRead>
    requires distinct { IsTrue (are_distinct symbols.now) }
    requires fits { IsTrue (list_all symbol_fits symbols.now) }
    ensures ok { IfOk result (λ r. Leads symbols.now (inside [] of_root text.now) (behind [] (the_item table.new r.0) r.1.now)) }
    ensures normal { IfOk result (λ r. IsNormalItem table.new r.0) }
    ensures grown { IfOk result (λ _. IsGrown table.old table.new) }
    ensures none { result ≡ Err TextRead.None → NoneFrom symbols.now (inside [] of_root text.now) }
{
    let mut stack = Vec::new(alloc);
    let list = OpenList::Root(Vec::new(alloc));
    let (mut next, mut rest) = enter_list(symbols, table, &mut stack, list, text)?;
    loop {
        match next {
            Next::Further => {
                let (found, after) = read_on(alloc, symbols, table, &mut stack, rest)?;
                next = found;
                rest = after;
            }
            Next::Whole(item) => return Ok((item, rest)),
        }
    }
}

/// The list of values that the whole text is.
pub fn read_values(
    alloc: Global,
    symbols: &Symbols,
    table: &mut GroundTable,
    text: &[u8],
) -> Result<Values, TextRead>
    requires distinct { IsTrue (are_distinct symbols.now) }
    requires fits { IsTrue (list_all symbol_fits symbols.now) }
    ensures ok { IfOk result (λ n. IsValuesText symbols.now text.now (values_tree (the_values table.new n))) }
    ensures normal { IfOk result (λ n. AreNormalValues table.new n) }
    ensures grown { IfOk result (λ _. IsGrown table.old table.new) }
    ensures none { result ≡ Err TextRead.None → (vs : tree.Values) → ¬ IsValuesText symbols.now text.now vs }
{
    let Some(inner) = after_byte(text, b'{') else {
        return Err(TextRead::None);
    };
    let (item, rest) = read_inside(alloc, symbols, table, inner)?;
    let values = whole_values(item, rest)?;
    Ok(values)
}
