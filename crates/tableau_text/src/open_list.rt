//! Lists that are being read.

ghost use Rattle.std.specs.Prelude.{◌≡◌, ◌++◌, ◌∷◌, [], map, length, Err, IfOk};
ghost use Rattle.formula_core.specs.GroundLists.{the_g_term, IsGrown};
ghost use Rattle.formula_text.specs.Frames.{IsFunction, NoFunction};
ghost use Rattle.tableau_text.specs.Items as items;
ghost use Rattle.tableau_text.specs.Items.{Made, a_term, closing, may_be_empty, of_args};
ghost use Rattle.tableau_text.specs.ItemView.{IsNormalItem, the_item};
ghost use Rattle.tableau_text.specs.OpenView.{IsPushed, NoPush, the_head, the_items};
ghost use Rattle.tableau_text.specs.declared.item.TableItem.TheVariants as item;

use crate::item::TableItem;
use cop_base::{PosId, SymbolId, Text};
use formula_core::{
    GroundLabel, GroundMark, GroundTable, GroundTerm, Symbol, SymbolClass, Symbols, Value,
};
use formula_text::TextRead;

/// A list whose opening bracket has been read, with what stands before it and the items that are whole: the arguments of the function
/// symbol of a name, the label of a spare constant, a string, the values of an eigenvariable and of a character, and a list by itself.
#[derive(Drop)]
pub enum OpenList {
    Args(Text, Vec<GroundTerm>),
    Own(u32, Vec<GroundMark>),
    Steps(Vec<GroundMark>),
    Eigen(PosId, Vec<Value>),
    New(PosId, Vec<Value>),
    Root(Vec<Value>),
}

/// The bracket that ends the list.
pub fn closing(list: &OpenList) -> u8
    ensures { result ≡ closing (the_head list.now) }
{
    match list {
        OpenList::Args(_, _) => b')',
        OpenList::Own(_, _) => b']',
        OpenList::Steps(_) => b']',
        OpenList::Eigen(_, _) => b'}',
        OpenList::New(_, _) => b'}',
        OpenList::Root(_) => b'}',
    }
}

/// Whether the list may be empty. A function symbol without arguments has no brackets.
pub fn may_be_empty(list: &OpenList) -> bool
    ensures { result ≡ may_be_empty (the_head list.now) }
{
    match list {
        OpenList::Args(_, _) => false,
        OpenList::Own(_, _) => true,
        OpenList::Steps(_) => true,
        OpenList::Eigen(_, _) => true,
        OpenList::New(_, _) => true,
        OpenList::Root(_) => true,
    }
}

#[tactic(auto, using(crate::proofs::PushLaws::pushing))]
fn with_term(list: OpenList, term: GroundTerm) -> Result<OpenList, TextRead>
    ensures ok { IfOk result (λ l. IsPushed list (item.Term term) l) }
    ensures none { result ≡ Err TextRead.None → NoPush list (item.Term term) }
{
    match list {
        OpenList::Args(name, mut terms) => {
            terms.push(term)?;
            Ok(OpenList::Args(name, terms))
        }
        OpenList::Own(_, _) => Err(TextRead::None),
        OpenList::Steps(_) => Err(TextRead::None),
        OpenList::Eigen(p, mut values) => {
            values.push(Value::Term(term))?;
            Ok(OpenList::Eigen(p, values))
        }
        OpenList::New(p, mut values) => {
            values.push(Value::Term(term))?;
            Ok(OpenList::New(p, values))
        }
        OpenList::Root(mut values) => {
            values.push(Value::Term(term))?;
            Ok(OpenList::Root(values))
        }
    }
}

#[tactic(auto, using(crate::proofs::PushLaws::pushing))]
fn with_mark(list: OpenList, mark: GroundMark) -> Result<OpenList, TextRead>
    ensures ok { IfOk result (λ l. IsPushed list (item.Mark mark) l) }
    ensures none { result ≡ Err TextRead.None → NoPush list (item.Mark mark) }
{
    match list {
        OpenList::Args(_, _) => Err(TextRead::None),
        OpenList::Own(k, mut marks) => {
            marks.push(mark)?;
            Ok(OpenList::Own(k, marks))
        }
        OpenList::Steps(mut marks) => {
            marks.push(mark)?;
            Ok(OpenList::Steps(marks))
        }
        OpenList::Eigen(_, _) => Err(TextRead::None),
        OpenList::New(_, _) => Err(TextRead::None),
        OpenList::Root(_) => Err(TextRead::None),
    }
}

#[tactic(auto, using(crate::proofs::PushLaws::pushing))]
fn with_steps(list: OpenList, label: GroundLabel) -> Result<OpenList, TextRead>
    ensures ok { IfOk result (λ l. IsPushed list (item.Steps label) l) }
    ensures none { result ≡ Err TextRead.None → NoPush list (item.Steps label) }
{
    match list {
        OpenList::Args(_, _) => Err(TextRead::None),
        OpenList::Own(_, _) => Err(TextRead::None),
        OpenList::Steps(_) => Err(TextRead::None),
        OpenList::Eigen(p, mut values) => {
            values.push(Value::Steps(label))?;
            Ok(OpenList::Eigen(p, values))
        }
        OpenList::New(p, mut values) => {
            values.push(Value::Steps(label))?;
            Ok(OpenList::New(p, values))
        }
        OpenList::Root(mut values) => {
            values.push(Value::Steps(label))?;
            Ok(OpenList::Root(values))
        }
    }
}

/// The list with an item put at its end, if it is one of such items.
#[tactic(auto, using(crate::proofs::PushLaws::pushing))]
pub fn with_item(list: OpenList, item: TableItem) -> Result<OpenList, TextRead>
    ensures ok { IfOk result (λ l. IsPushed list item l) }
    ensures none { result ≡ Err TextRead.None → NoPush list item }
{
    match item {
        TableItem::Term(term) => with_term(list, term),
        TableItem::Mark(mark) => with_mark(list, mark),
        TableItem::Steps(label) => with_steps(list, label),
        TableItem::Values(_) => Err(TextRead::None),
    }
}

/// The function symbol of this name and this number of arguments.
pub fn function_of(symbols: &Symbols, name: Text, arity: u32) -> Result<SymbolId, TextRead>
    ensures ok { IfOk result (λ id. IsFunction symbols.now id.0 name arity) }
    ensures none { result ≡ Err TextRead.None → NoFunction symbols.now name arity }
{
    let symbol = Symbol {
        name,
        class: SymbolClass::Function,
        arity,
    };
    match symbols.find(&symbol) {
        Some(id) => Ok(id),
        None => Err(TextRead::None),
    }
}

// The term of the function symbol of this name over these arguments.
fn close_args(
    symbols: &Symbols,
    table: &mut GroundTable,
    name: Text,
    terms: &[GroundTerm],
) -> Result<TableItem, TextRead>
    ensures made { IfOk result (λ i. Made symbols.now (of_args name) (map (λ t. a_term (the_g_term table.old t)) terms.now) (the_item table.new i)) }
    ensures normal { IfOk result (λ i. IsNormalItem table.new i) }
    ensures grown { IfOk result (λ _. IsGrown table.old table.new) }
    ensures none { result ≡ Err TextRead.None → (j : items.Item) → ¬ Made symbols.now (of_args name) (map (λ t. a_term (the_g_term table.old t)) terms.now) j }
{
    // A list of 2^32 arguments fits no memory.
    let Ok(arity) = u32::try_from(terms.len()) else {
        return Err(TextRead::NoMemory);
    };
    let f = function_of(symbols, name, arity)?;
    let args = table.add_terms(terms)?;
    Ok(TableItem::Term(GroundTerm::Fun(f, args)))
}

/// The item of which the list is the last part.
#[tactic(auto, using(crate::proofs::CloseLaws::closing_lists))]
pub fn close(
    symbols: &Symbols,
    table: &mut GroundTable,
    list: OpenList,
) -> Result<TableItem, TextRead>
    ensures made { IfOk result (λ i. Made symbols.now (the_head list) (the_items table.old list) (the_item table.new i)) }
    ensures normal { IfOk result (λ i. IsNormalItem table.new i) }
    ensures grown { IfOk result (λ _. IsGrown table.old table.new) }
    ensures none { result ≡ Err TextRead.None → (j : items.Item) → ¬ Made symbols.now (the_head list) (the_items table.old list) j }
{
    match list {
        OpenList::Args(name, terms) => {
            let item = close_args(symbols, table, name, terms.as_slice())?;
            Ok(item)
        }
        OpenList::Own(k, marks) => {
            let label = table.add_marks(marks.as_slice())?;
            Ok(TableItem::Term(GroundTerm::Own(k, label)))
        }
        OpenList::Steps(marks) => {
            let label = table.add_marks(marks.as_slice())?;
            Ok(TableItem::Steps(label))
        }
        OpenList::Eigen(p, values) => {
            let values = table.add_values(values.as_slice())?;
            Ok(TableItem::Term(GroundTerm::Eigen(p, values)))
        }
        OpenList::New(p, values) => {
            let values = table.add_values(values.as_slice())?;
            Ok(TableItem::Mark(GroundMark::New(p, values)))
        }
        OpenList::Root(values) => {
            let values = table.add_values(values.as_slice())?;
            Ok(TableItem::Values(values))
        }
    }
}
