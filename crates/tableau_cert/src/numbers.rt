//! That the numbers of moves have 32 bits, as a text asks. Their types say so, and the model of a table does not: its lists are gone
//! through once, each naming lists before it.

ghost use Rattle.std.specs.Prelude.{◌≡◌, ◌<◌, ℕ, List, length, map, IsTrue};
ghost use Rattle.std.specs.List.{AllByRecursion, list_all};
ghost use Rattle.calculus.specs.Ground.{marks_tree, values_tree};
ghost use Rattle.calculus.specs.Lists.{g_terms_tree};
ghost use Rattle.calculus.specs.Text.{is_number};
ghost use Rattle.calculus.specs.TableauText.{ground_has_numbers, grounds_have_numbers, ground_mark_has_numbers, marks_have_numbers, value_has_numbers, values_have_numbers};
ghost use Rattle.formula_core.specs.GroundLists.{GroundList, list_at, the_g_term, the_mark, the_value, IsLowerTerm, IsLowerMark, IsLowerValue};
ghost use Rattle.tableau_text.specs.MovesView.{the_move, the_moves};
ghost use Rattle.tableau_cert.specs.Numbers.{HaveNumbers, list_has_numbers, move_has_numbers, moves_have_numbers};

use formula_core::{GroundLabel, GroundMark, GroundTable, GroundTerm, GroundTerms, Value, Values};
use tableau_text::{Move, Moves};

fn number_fits(number: u32)
    ensures { IsTrue (is_number number) }
{}

fn term_fits(term: GroundTerm)
    ensures { (ls : List GroundList) (n : ℕ) → HaveNumbers ls n → IsLowerTerm ls n term → IsTrue (ground_has_numbers (the_g_term ls term)) }
{
    match term {
        GroundTerm::Fun(_, _) => (),
        GroundTerm::Eigen(p, _) => number_fits(p.0),
        GroundTerm::Common(k) => number_fits(k),
        GroundTerm::Own(k, _) => number_fits(k),
    }
}

fn mark_fits(mark: GroundMark)
    ensures { (ls : List GroundList) (n : ℕ) → HaveNumbers ls n → IsLowerMark ls n mark → IsTrue (ground_mark_has_numbers (the_mark ls mark)) }
{
    match mark {
        GroundMark::New(p, _) => number_fits(p.0),
        GroundMark::Spare(k) => number_fits(k),
    }
}

fn value_fits(value: Value)
    ensures { (ls : List GroundList) (n : ℕ) → HaveNumbers ls n → IsLowerValue ls n value → IsTrue (value_has_numbers (the_value ls value)) }
{
    match value {
        Value::Term(term) => term_fits(term),
        Value::Steps(_) => (),
    }
}

fn terms_fit(terms: &[GroundTerm])
    ensures { (ls : List GroundList) (n : ℕ) → HaveNumbers ls n → AllByRecursion (IsLowerTerm ls n) terms.now
        → IsTrue (grounds_have_numbers (g_terms_tree (map (the_g_term ls) terms.now))) }
{
    for term in terms {
        term_fits(*term);
    }
}

fn marks_fit(marks: &[GroundMark])
    ensures { (ls : List GroundList) (n : ℕ) → HaveNumbers ls n → AllByRecursion (IsLowerMark ls n) marks.now
        → IsTrue (marks_have_numbers (marks_tree (map (the_mark ls) marks.now))) }
{
    for mark in marks {
        mark_fits(*mark);
    }
}

fn values_fit(values: &[Value])
    ensures { (ls : List GroundList) (n : ℕ) → HaveNumbers ls n → AllByRecursion (IsLowerValue ls n) values.now
        → IsTrue (values_have_numbers (values_tree (map (the_value ls) values.now))) }
{
    for value in values {
        value_fits(*value);
    }
}

// The list of a number, of whatever kind it is.
fn list_fits(table: &GroundTable, number: u32)
    ensures { HaveNumbers table.now number → IsTrue (list_has_numbers (list_at table.now number)) }
{
    terms_fit(table.terms(GroundTerms(number)));
    marks_fit(table.marks(GroundLabel(number)));
    values_fit(table.values(Values(number)));
}

fn table_fits(table: &GroundTable)
    ensures { HaveNumbers table.now (length table.now) }
{
    for number in 0..table.len() {
        list_fits(table, number as u32);
    }
}

fn move_fits(step: &Move)
    ensures { (ls : List GroundList) → HaveNumbers ls (length ls) → IsTrue (move_has_numbers (the_move ls step.now)) }
{
    match step {
        Move::Reduction(up) => number_fits(*up),
        Move::Extension { place, .. } => number_fits(*place),
    }
}

fn steps_fit(steps: &[Move])
    ensures { (ls : List GroundList) → HaveNumbers ls (length ls) → IsTrue (list_all move_has_numbers (map (the_move ls) steps.now)) }
{
    for step in steps {
        move_fits(step);
    }
}

/// All numbers of the moves are `u32`s, also those of their table.
pub fn moves_fit(moves: &Moves)
    ensures { IsTrue (moves_have_numbers (the_moves moves.now)) }
{
    table_fits(&moves.table);
    steps_fit(moves.moves.as_slice());
}
