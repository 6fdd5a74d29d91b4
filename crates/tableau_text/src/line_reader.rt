//! Reading the lines behind the head.

ghost use Rattle.std.specs.Prelude.{◌≡◌, ◌≤◌, ◌∷◌, ◌++◌, [], ℕ, List, length, decimal, Err, Some, None, IsNone, IfSome, IfOk, IsTrue, codes};
ghost use Rattle.std.specs.List.{list_all};
ghost use Rattle.calculus.specs.Problems.{are_distinct, symbol_fits};
ghost use Rattle.calculus.specs.TableauText as tree;
ghost use Rattle.calculus.specs.TableauText.{side_text};
ghost use Rattle.formula_core.specs.GroundLists.{AreNormalValues, IsGrown};
ghost use Rattle.tableau_text.specs.MoveLines.{IsChosenText, IsMoveLine};
ghost use Rattle.tableau_text.specs.MovesView.{IsNormalMove, the_chosen, the_move};
ghost use Rattle.tableau_text.specs.Sides.{AreLettersOn, AreSidesOn, IsExtensionText, IsPlaceOn, NoSide};
ghost use Rattle.text_lines.specs.Spelling.{IsNumber};

use crate::bytes::after_byte;
use crate::moves::{Chosen, Move};
use crate::values_reader::read_values;
use calculus::sign::Side;
use formula_core::{GroundTable, Symbols};
use formula_text::TextRead;
use std::alloc::Global;
use tableau_core::Selection;
use text_lines::{read_front_number, read_whole_number, rest_after};

fn side_of(byte: u8) -> Option<Side>
    ensures some { IfSome result (λ s. byte ≡ side_text s) }
    ensures none { IsNone result → (s : Side) → ¬ (byte ≡ side_text s) }
{
    match byte {
        b'l' => Some(Side::Left),
        b'r' => Some(Side::Right),
        _ => None,
    }
}

// The side whose letter a text begins with, and what follows it.
#[tactic(auto, using(crate::proofs::SideLaws::next_letters))]
fn next_side(text: &[u8]) -> Option<(Side, &[u8])>
    ensures some { IfSome result (λ r. text.now ≡ side_text r.0 ∷ r.1.now) }
    ensures none { IsNone result → NoSide text.now }
{
    match text.split_first() {
        Some((first, rest)) => match side_of(*first) {
            Some(side) => Some((side, rest)),
            None => None,
        },
        None => None,
    }
}

// The sides that a text begins with, as many as there are, and what follows them.
fn read_letters(alloc: Global, text: &[u8]) -> Result<(Selection, &[u8]), TextRead>
    ensures ok { IfOk result (λ r. AreLettersOn text.now r.0 r.1.now) }
    ensures none { ¬ (result ≡ Err TextRead.None) }
{
    let mut sides = Selection::new(alloc);
    let mut rest = text;
    while let Some((side, after)) = next_side(rest) {
        sides.push(side)?;
        rest = after;
    }
    Ok((sides, rest))
}

// One side or more before a space, and what follows the space.
fn read_some_sides(alloc: Global, text: &[u8]) -> Result<(Selection, &[u8]), TextRead>
    requires { (rest : List ℕ) → ¬ (text.now ≡ codes "- " ++ rest) }
    ensures ok { IfOk result (λ r. AreSidesOn text.now r.0 r.1.now) }
    ensures none { result ≡ Err TextRead.None → (ss : List Side) (rest : List ℕ) → ¬ AreSidesOn text.now ss rest }
{
    let (sides, after) = read_letters(alloc, text)?;
    if sides.items().is_empty() {
        return Err(TextRead::None);
    }
    match after_byte(after, b' ') {
        Some(rest) => Ok((sides, rest)),
        None => Err(TextRead::None),
    }
}

// The sides that a text begins with before a space, and what follows the space.
fn read_sides(alloc: Global, text: &[u8]) -> Result<(Selection, &[u8]), TextRead>
    ensures ok { IfOk result (λ r. AreSidesOn text.now r.0 r.1.now) }
    ensures none { result ≡ Err TextRead.None → (ss : List Side) (rest : List ℕ) → ¬ AreSidesOn text.now ss rest }
{
    match rest_after(text, b"- ") {
        Some(rest) => Ok((Selection::new(alloc), rest)),
        None => read_some_sides(alloc, text),
    }
}

/// The clause instance that the whole text is.
pub fn read_chosen(
    alloc: Global,
    symbols: &Symbols,
    table: &mut GroundTable,
    text: &[u8],
) -> Result<Chosen, TextRead>
    requires distinct { IsTrue (are_distinct symbols.now) }
    requires fits { IsTrue (list_all symbol_fits symbols.now) }
    ensures ok { IfOk result (λ i. IsChosenText symbols.now text.now (the_chosen table.new i)) }
    ensures normal { IfOk result (λ i. AreNormalValues table.new i.values) }
    ensures grown { IfOk result (λ _. IsGrown table.old table.new) }
    ensures none { result ≡ Err TextRead.None → (i : tree.Chosen) → ¬ IsChosenText symbols.now text.now i }
{
    let (selection, rest) = read_sides(alloc, text)?;
    let values = read_values(alloc, symbols, table, rest)?;
    Ok(Chosen { selection, values })
}

// The number of a reduction that the whole text is.
fn read_reduction(text: &[u8]) -> Result<u32, TextRead>
    ensures ok { IfOk result (λ k. IsNumber text.now k) }
    ensures none { result ≡ Err TextRead.None → (k : ℕ) → ¬ IsNumber text.now k }
{
    match read_whole_number(text) {
        Some(up) => Ok(up),
        None => Err(TextRead::None),
    }
}

// The place that a text begins with, and what follows the space behind it.
fn read_place(text: &[u8]) -> Result<(u32, &[u8]), TextRead>
    ensures ok { IfOk result (λ r. IsPlaceOn text.now r.0 r.1.now) }
    ensures none { result ≡ Err TextRead.None → (k : ℕ) (rest : List ℕ) → ¬ IsPlaceOn text.now k rest }
{
    let Some((place, after)) = read_front_number(text) else {
        return Err(TextRead::None);
    };
    match after_byte(after, b' ') {
        Some(rest) => Ok((place, rest)),
        None => Err(TextRead::None),
    }
}

// The place and the instance of an extension that the whole text is.
fn read_extension(
    alloc: Global,
    symbols: &Symbols,
    table: &mut GroundTable,
    text: &[u8],
) -> Result<(u32, Chosen), TextRead>
    requires distinct { IsTrue (are_distinct symbols.now) }
    requires fits { IsTrue (list_all symbol_fits symbols.now) }
    ensures ok { IfOk result (λ r. IsExtensionText symbols.now text.now r.0 (the_chosen table.new r.1)) }
    ensures normal { IfOk result (λ r. AreNormalValues table.new r.1.values) }
    ensures grown { IfOk result (λ _. IsGrown table.old table.new) }
    ensures none { result ≡ Err TextRead.None → (k : ℕ) (i : tree.Chosen) → ¬ IsExtensionText symbols.now text.now k i }
{
    let (place, rest) = read_place(text)?;
    let chosen = read_chosen(alloc, symbols, table, rest)?;
    Ok((place, chosen))
}

/// The move that a line states.
pub fn read_move(
    alloc: Global,
    symbols: &Symbols,
    table: &mut GroundTable,
    line: &[u8],
) -> Result<Move, TextRead>
    requires distinct { IsTrue (are_distinct symbols.now) }
    requires fits { IsTrue (list_all symbol_fits symbols.now) }
    ensures ok { IfOk result (λ m. IsMoveLine symbols.now line.now (the_move table.new m)) }
    ensures normal { IfOk result (λ m. IsNormalMove table.new m) }
    ensures grown { IfOk result (λ _. IsGrown table.old table.new) }
    ensures none { result ≡ Err TextRead.None → (m : tree.Move) → ¬ IsMoveLine symbols.now line.now m }
{
    let _called_for_its_bound = table.len();
    if let Some(rest) = rest_after(line, b"reduce ") {
        let up = read_reduction(rest)?;
        return Ok(Move::Reduction(up));
    }
    let Some(rest) = rest_after(line, b"extend ") else {
        return Err(TextRead::None);
    };
    let (place, chosen) = read_extension(alloc, symbols, table, rest)?;
    Ok(Move::Extension { place, chosen })
}
