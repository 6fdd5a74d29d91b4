//! Reading the beginning of an item.

ghost use Rattle.std.specs.Prelude.{◌≡◌, ◌<◌, ◌≤◌, ◌∷◌, [], ℕ, List, length, Err, IfOk, IsTrue};
ghost use Rattle.std.specs.List.{list_all};
ghost use Rattle.calculus.specs.Problems.{are_distinct, symbol_fits};
ghost use Rattle.formula_core.specs.GroundLists.{the_terms, AreNormalTerms};
ghost use Rattle.tableau_text.specs.Items.{Head};
ghost use Rattle.tableau_text.specs.Tokens.{IsBeginning, IsBegunAt, NoItem, NoneAt, by_name, by_number, opened};
ghost use Rattle.tableau_text.specs.OpenView.{IsFresh, IsNew, the_beginning, the_head};

use crate::bytes::after_byte;
use crate::item::TableItem;
use crate::open_list::{OpenList, function_of};
use crate::token::{NameKind, Token, read_token};
use cop_base::{PosId, Text};
use formula_core::{GroundMark, GroundTable, GroundTerm, GroundTerms, Symbols};
use formula_text::TextRead;
use std::alloc::Global;

/// An item that is whole, or one whose list is open.
#[derive(Drop)]
pub enum Begun {
    Leaf(TableItem),
    Open(OpenList),
}

// The empty list of arguments.
#[tactic(auto, using(crate::proofs::StepLaws::none_args))]
fn no_args(table: &GroundTable) -> GroundTerms
    ensures none { the_terms table.now result ≡ [] }
    ensures normal { AreNormalTerms table.now result }
{
    let _called_for_its_bound = table.len();
    GroundTerms(GroundTable::EMPTY)
}

// Behind the name of a function symbol without arguments.
fn begin_constant<'a>(
    symbols: &Symbols,
    table: &GroundTable,
    name: Text,
    text: &'a [u8],
) -> Result<(Begun, &'a [u8]), TextRead>
    requires distinct { IsTrue (are_distinct symbols.now) }
    requires fits { IsTrue (list_all symbol_fits symbols.now) }
    requires none { (rest : List ℕ) → ¬ (text.now ≡ 40 ∷ rest) }
    ensures ok { IfOk result (λ r. IsBegunAt symbols.now (by_name name) text.now (the_beginning table.now r.0) r.1.now) }
    ensures fresh { IfOk result (λ r. IsFresh table.now r.0) }
    ensures rest { IfOk result (λ r. length r.1.now ≤ length text.now) }
    ensures none { result ≡ Err TextRead.None → NoneAt symbols.now (by_name name) text.now }
{
    let args = no_args(table);
    let f = function_of(symbols, name, 0)?;
    Ok((Begun::Leaf(TableItem::Term(GroundTerm::Fun(f, args))), text))
}

// Behind the name of a function symbol.
#[tactic(auto, using(crate::proofs::StepLaws::anew))]
fn begin_function<'a>(
    alloc: Global,
    symbols: &Symbols,
    table: &GroundTable,
    name: Text,
    text: &'a [u8],
) -> Result<(Begun, &'a [u8]), TextRead>
    requires distinct { IsTrue (are_distinct symbols.now) }
    requires fits { IsTrue (list_all symbol_fits symbols.now) }
    ensures ok { IfOk result (λ r. IsBegunAt symbols.now (by_name name) text.now (the_beginning table.now r.0) r.1.now) }
    ensures fresh { IfOk result (λ r. IsFresh table.now r.0) }
    ensures rest { IfOk result (λ r. length r.1.now ≤ length text.now) }
    ensures none { result ≡ Err TextRead.None → NoneAt symbols.now (by_name name) text.now }
{
    match after_byte(text, b'(') {
        Some(rest) => Ok((Begun::Open(OpenList::Args(name, Vec::new(alloc))), rest)),
        None => begin_constant(symbols, table, name, text),
    }
}

// Behind the number of an eigenvariable.
#[tactic(auto, using(crate::proofs::StepLaws::anew))]
fn begin_eigen<'a>(
    alloc: Global,
    symbols: &Symbols,
    number: u32,
    text: &'a [u8],
) -> Result<(OpenList, &'a [u8]), TextRead>
    requires fits { IsTrue (list_all symbol_fits symbols.now) }
    ensures ok { IfOk result (λ r. IsBegunAt symbols.now (by_number NameKind.Eigen number) text.now (opened (the_head r.0)) r.1.now) }
    ensures fresh { IfOk result (λ r. IsNew r.0) }
    ensures rest { IfOk result (λ r. length r.1.now ≤ length text.now) }
    ensures none { result ≡ Err TextRead.None → NoneAt symbols.now (by_number NameKind.Eigen number) text.now }
{
    match after_byte(text, b'{') {
        Some(rest) => Ok((OpenList::Eigen(PosId(number), Vec::new(alloc)), rest)),
        None => Err(TextRead::None),
    }
}

// Behind the number of the character of a pi position.
#[tactic(auto, using(crate::proofs::StepLaws::anew))]
fn begin_new<'a>(
    alloc: Global,
    symbols: &Symbols,
    number: u32,
    text: &'a [u8],
) -> Result<(OpenList, &'a [u8]), TextRead>
    requires fits { IsTrue (list_all symbol_fits symbols.now) }
    ensures ok { IfOk result (λ r. IsBegunAt symbols.now (by_number NameKind.New number) text.now (opened (the_head r.0)) r.1.now) }
    ensures fresh { IfOk result (λ r. IsNew r.0) }
    ensures rest { IfOk result (λ r. length r.1.now ≤ length text.now) }
    ensures none { result ≡ Err TextRead.None → NoneAt symbols.now (by_number NameKind.New number) text.now }
{
    match after_byte(text, b'{') {
        Some(rest) => Ok((OpenList::New(PosId(number), Vec::new(alloc)), rest)),
        None => Err(TextRead::None),
    }
}

// Behind the number of a spare constant.
#[tactic(auto, using(crate::proofs::StepLaws::anew))]
fn begin_spare<'a>(
    alloc: Global,
    symbols: &Symbols,
    table: &GroundTable,
    number: u32,
    text: &'a [u8],
) -> Result<(Begun, &'a [u8]), TextRead>
    requires fits { IsTrue (list_all symbol_fits symbols.now) }
    ensures ok { IfOk result (λ r. IsBegunAt symbols.now (by_number NameKind.Constant number) text.now (the_beginning table.now r.0) r.1.now) }
    ensures fresh { IfOk result (λ r. IsFresh table.now r.0) }
    ensures rest { IfOk result (λ r. length r.1.now ≤ length text.now) }
    ensures none { result ≡ Err TextRead.None → NoneAt symbols.now (by_number NameKind.Constant number) text.now }
{
    let Some(label) = after_byte(text, b'@') else {
        return Ok((
            Begun::Leaf(TableItem::Term(GroundTerm::Common(number))),
            text,
        ));
    };
    match after_byte(label, b'[') {
        Some(rest) => Ok((Begun::Open(OpenList::Own(number, Vec::new(alloc))), rest)),
        None => Err(TextRead::None),
    }
}

// Behind a name with a number.
fn begin_numbered<'a>(
    alloc: Global,
    symbols: &Symbols,
    table: &GroundTable,
    kind: NameKind,
    number: u32,
    text: &'a [u8],
) -> Result<(Begun, &'a [u8]), TextRead>
    requires fits { IsTrue (list_all symbol_fits symbols.now) }
    ensures ok { IfOk result (λ r. IsBegunAt symbols.now (by_number kind number) text.now (the_beginning table.now r.0) r.1.now) }
    ensures fresh { IfOk result (λ r. IsFresh table.now r.0) }
    ensures rest { IfOk result (λ r. length r.1.now ≤ length text.now) }
    ensures none { result ≡ Err TextRead.None → NoneAt symbols.now (by_number kind number) text.now }
{
    match kind {
        NameKind::Eigen => {
            let (list, rest) = begin_eigen(alloc, symbols, number, text)?;
            Ok((Begun::Open(list), rest))
        }
        NameKind::New => {
            let (list, rest) = begin_new(alloc, symbols, number, text)?;
            Ok((Begun::Open(list), rest))
        }
        NameKind::Constant => begin_spare(alloc, symbols, table, number, text),
        NameKind::Spare => Ok((
            Begun::Leaf(TableItem::Mark(GroundMark::Spare(number))),
            text,
        )),
    }
}

/// The item that a text begins with, as far as its opening bracket, and what follows.
#[tactic(auto, using(crate::proofs::StepLaws::anew))]
pub fn begin<'a>(
    alloc: Global,
    symbols: &Symbols,
    table: &GroundTable,
    text: &'a [u8],
) -> Result<(Begun, &'a [u8]), TextRead>
    requires distinct { IsTrue (are_distinct symbols.now) }
    requires fits { IsTrue (list_all symbol_fits symbols.now) }
    ensures ok { IfOk result (λ r. IsBeginning symbols.now text.now (the_beginning table.now r.0) r.1.now) }
    ensures fresh { IfOk result (λ r. IsFresh table.now r.0) }
    ensures rest { IfOk result (λ r. length r.1.now < length text.now) }
    ensures none { result ≡ Err TextRead.None → NoItem symbols.now text.now }
{
    let (token, rest) = read_token(alloc, text)?;
    match token {
        Token::Name(name) => {
            let found = begin_function(alloc, symbols, table, name, rest)?;
            Ok(found)
        }
        Token::Numbered(kind, number) => {
            let found = begin_numbered(alloc, symbols, table, kind, number, rest)?;
            Ok(found)
        }
        Token::Bracket => Ok((Begun::Open(OpenList::Steps(Vec::new(alloc))), rest)),
    }
}
