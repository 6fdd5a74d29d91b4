//! Terms for the variables of formulas.

ghost use Rattle.std.specs.Prelude.{◌≡◌, ◌<◌, ◌++◌, ◌∷◌, [], ℕ, get_or, length};
ghost use Rattle.std.specs.Prelude.{IfOk, IfSome, OnOk, OnErr};
ghost use Rattle.calculus.specs.Equality.{term_eq};
ghost use Rattle.calculus.specs.Syntax as tree;
ghost use Rattle.label_table.specs.Longer.{IsLonger};
ghost use Rattle.derivation_branch.specs.Putting.{AreClosed, IsClosed, value_at};
ghost use Rattle.derivation_branch.specs.RowNumbers.{IsNumberOf};
ghost use Rattle.formula_text.specs.Rows.{row_of};
ghost use Rattle.derivation_branch.specs.TableView.{the_value};

use crate::following::is_same_row;
use crate::row_set::RowSet;
use cop_base::NoMemory;
use formula_text::{RowItem, TermRow};
use label_table::place_of;
use std::alloc::Global;
use std::marker::Model;

/// What stands for a variable.
#[derive(Clone, Copy)]
pub enum Value<'a> {
    /// A term of the derivation.
    Given(&'a TermRow),
    /// The eigenvariable of this number.
    Eigen(u32),
    /// A variable that is bound further out, where no term stands for the variable.
    Free(u32),
}

/// A term before the substitution at a place of the table. `number` is that of a large term, else 0.
#[derive(Clone, Copy)]
struct Binding<'a> {
    term: Value<'a>,
    outer: u32,
    number: u32,
}

/// A table of substitutions. The first one is empty, and each other one puts a term for the
/// variable of the innermost quantifier before another substitution of the table. Nothing is
/// copied, so a branch may have many. Large terms have numbers, so that they are compared in
/// constant time.
#[derive(Drop)]
pub struct Substitutions<'a> {
    bindings: Vec<Binding<'a>>,
    rows: RowSet<'a>,
}

impl<'a> Model for Substitutions<'a> {
    ghost use Rattle.std.specs.Prelude.{List, map};
    ghost use Rattle.calculus.specs.Syntax as tree;
    ghost use Rattle.calculus.specs.Codes.{term_code};
    ghost use Rattle.std.specs.Coded.{codes};
    ghost use Rattle.label_table.specs.Chains.{AreBackward, chains};
    ghost use Rattle.derivation_branch.specs.Putting.{AreClosedLinks};
    ghost use Rattle.derivation_branch.specs.RowNumbers.{AreNumbered};
    ghost use Rattle.derivation_branch.specs.TableView.{the_link};

    ghost Value = { List (List tree.Term) };

    ghost coded = { Prim.hlevel (codes, term_code) };

    ghost view = { λ s. chains (map the_link s.bindings.items) };

    ghost invariant = { λ s. AreBackward 1 (map the_link s.bindings.items)
        × AreClosedLinks (map the_link s.bindings.items)
        × AreNumbered s.rows s.bindings.items };
}

fn number_of<'a>(rows: &mut RowSet<'a>, term: Value<'a>) -> Result<u32, NoMemory>
    ensures told { IfOk result (λ n. 0 < n → IsNumberOf rows.new n (the_value term.entry)) }
    ensures grown { IsLonger rows.old rows.new }
{
    match term {
        Value::Given(row) => rows.add(row),
        Value::Eigen(_) | Value::Free(_) => Ok(0),
    }
}

// Whether a value is the term of a row.
fn is_of_row<'a>(row: &[RowItem], value: Value<'a>) -> bool
    ensures { (t : tree.Term) → row.now ≡ row_of t → result ≡ term_eq t (the_value value.entry) }
{
    match value {
        Value::Given(other) => is_same_row(row, other.items()),
        Value::Eigen(n) => is_same_row(row, &[RowItem::Eigen(n)]),
        Value::Free(n) => is_same_row(row, &[RowItem::Var(n)]),
    }
}

fn is_equal_value<'a>(first: Value<'a>, second: Value<'a>) -> bool
    ensures { result ≡ term_eq (the_value first.entry) (the_value second.entry) }
{
    match first {
        Value::Given(row) => is_of_row(row.items(), second),
        Value::Eigen(n) => is_of_row(&[RowItem::Eigen(n)], second),
        Value::Free(n) => is_of_row(&[RowItem::Var(n)], second),
    }
}

impl<'a> Substitutions<'a> {
    /// The table of the empty substitution.
    pub fn new(alloc: Global) -> Substitutions<'a>
        ensures { result ≡ [] ∷ [] }
    {
        Substitutions {
            bindings: Vec::new(alloc),
            rows: RowSet::new(alloc),
        }
    }

    /// Puts a term without variables before a substitution of the table. The answer is the place of
    /// the new one.
    pub fn put(&mut self, outer: u32, term: Value<'a>) -> Result<u32, NoMemory>
        requires within { outer < length self.old }
        requires closed { IsClosed (the_value term) }
        ensures place { IfOk result (λ k. k ≡ length self.old) }
        ensures put { OnOk result
            (self.new ≡ self.old ++ (the_value term.entry ∷ get_or self.old outer []) ∷ []) }
        ensures others { OnOk result (AreClosed (get_or self.old outer [])) }
        ensures err { OnErr result (self.new ≡ self.old) }
    {
        let place = place_of(self.bindings.len() + 1)?;
        let number = number_of(&mut self.rows, term)?;
        self.bindings.push(Binding {
            term,
            outer,
            number,
        })?;
        Ok(place)
    }

    /// Puts the first term of an earlier substitution before one of the table. A large term keeps its
    /// number, so its row is not looked up again.
    pub fn put_again(&mut self, outer: u32, earlier: u32) -> Result<u32, NoMemory>
        requires within { outer < length self.old }
        requires earlier { earlier < length self.old }
        requires some { 0 < earlier }
        ensures place { IfOk result (λ k. k ≡ length self.old) }
        ensures put { OnOk result (self.new ≡ self.old
            ++ (value_at (get_or self.old earlier []) 0 ∷ get_or self.old outer []) ∷ []) }
        ensures others { OnOk result (AreClosed (get_or self.old outer [])) }
        ensures err { OnErr result (self.new ≡ self.old) }
    {
        let place = place_of(self.bindings.len() + 1)?;
        let Binding { term, number, .. } = self.bindings[earlier as usize - 1];
        self.bindings.push(Binding {
            term,
            outer,
            number,
        })?;
        Ok(place)
    }

    // The place of the substitution whose first term stands for the variable, or 0 where none does,
    // and the number of the variable there.
    fn binding_of(&self, place: u32, variable: u32) -> (u32, u32)
        requires { place < length self.now }
        ensures within { result.0 < length self.now }
        ensures first { 0 < result.0 → result.1 ≡ 0 }
        ensures same { value_at (get_or self.now result.0 []) result.1
            ≡ value_at (get_or self.now place []) variable }
        ensures closed { AreClosed (get_or self.now place []) }
    {
        let mut at = place;
        let mut left = variable;
        while at > 0 {
            if left == 0 {
                return (at, 0);
            }
            left -= 1;
            at = self.bindings[at as usize - 1].outer;
        }
        (0, left)
    }

    // What stands for the variable to which `binding_of` leads.
    fn value_here(&self, at: u32, left: u32) -> Value<'a>
        requires within { at < length self.now }
        requires first { 0 < at → left ≡ 0 }
        ensures { the_value result ≡ value_at (get_or self.now at []) left }
    {
        let bindings = &self.bindings;
        if at == 0 {
            return Value::Free(left);
        }
        bindings[at as usize - 1].term
    }

    /// What the substitution at a place puts for the variable of a number.
    pub fn value(&self, place: u32, variable: u32) -> Value<'a>
        requires { place < length self.now }
        ensures value { the_value result ≡ value_at (get_or self.now place []) variable }
        ensures closed { AreClosed (get_or self.now place []) }
        ensures first { get_or self.now 0 [] ≡ [] }
    {
        let _read_for_its_invariant = &self.bindings;
        let (at, left) = self.binding_of(place, variable);
        self.value_here(at, left)
    }

    // Whether the first terms at two places are equal, where both have numbers.
    fn are_equal_numbers(&self, first: u32, second: u32) -> Option<bool>
        requires first { first < length self.now }
        requires second { second < length self.now }
        ensures { IfSome result (λ r. (k m : ℕ) → (0 < first → k ≡ 0) → (0 < second → m ≡ 0)
            → r ≡ term_eq (value_at (get_or self.now first []) k)
            (value_at (get_or self.now second []) m)) }
    {
        let bindings = &self.bindings;
        if first == 0 {
            return None;
        }
        if second == 0 {
            return None;
        }
        let number = bindings[first as usize - 1].number;
        let other = bindings[second as usize - 1].number;
        if number == 0 {
            return None;
        }
        if other == 0 {
            return None;
        }
        Some(self.rows.are_equal(number, other))
    }

    /// Whether two variables, each under the substitution at a place, stand for the same term.
    pub fn are_equal(&self, place: u32, variable: u32, other_place: u32, other: u32) -> bool
        requires first { place < length self.now }
        requires second { other_place < length self.now }
        ensures told { result ≡ term_eq (value_at (get_or self.now place []) variable)
            (value_at (get_or self.now other_place []) other) }
        ensures closed { AreClosed (get_or self.now place []) }
        ensures other_closed { AreClosed (get_or self.now other_place []) }
    {
        let _read_for_its_invariant = &self.bindings;
        let (at, left) = self.binding_of(place, variable);
        let (other_at, other_left) = self.binding_of(other_place, other);
        match self.are_equal_numbers(at, other_at) {
            Some(told) => told,
            None => is_equal_value(
                self.value_here(at, left),
                self.value_here(other_at, other_left),
            ),
        }
    }
}
