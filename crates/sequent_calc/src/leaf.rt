//! Tests of the leaves of terms: the variables, eigenvariables and spare constants that stand in
//! them.

ghost use Rattle.std.specs.Prelude.{◌≡◌, ◌∷◌, ◌||◌, List, option_copied};
ghost use Rattle.std.specs.Option.{option_map};
ghost use Rattle.calculus.specs.Calculus.{eigen_named, home_holds, spare_allowed, spare_named};
ghost use Rattle.calculus.specs.Lists.{terms_tree};
ghost use Rattle.calculus.specs.Syntax as tree;
ghost use Rattle.calculus.specs.Substitution.{any_leaf, any_leaf_in, any_leaf_of};
ghost use Rattle.formula_core.specs.FormulaView.{the_formula};
ghost use Rattle.formula_core.specs.TermView.{the_term};
ghost use Rattle.formula_text.specs.Rows.{any_item};
ghost use Rattle.formula_text.specs.declared.term_row.RowItem.{RowItem as Item};
ghost use Rattle.logic_rules.specs.MarkView.{the_character};
ghost use Rattle.sequent_calc.specs.DerivationView.{the_names};
ghost use Rattle.sequent_calc.specs.LeafView.{the_test};
ghost use Rattle.sequent_calc.specs.NamesView.{the_eigen, the_home, the_spare};

use crate::names::{Home, Names};
use formula_core::{Formula, Term, Terms};
use formula_text::{RowItem, TermRow};
use logic_rules::{Label, Mark, Problem};

/// What is asked of a leaf.
#[derive(Clone, Copy)]
pub enum LeafTest<'a> {
    /// Whether it is the eigenvariable of this number.
    IsEigen(u32),
    /// Whether the mark stands in its home.
    HasInHome(&'a Names, Mark),
    /// Whether it is a name that is not listed.
    IsUnknown(&'a Names),
    /// Whether it must not stand in the term of a gamma step at this label.
    IsForbidden(&'a Problem, &'a Names, &'a Label),
}

/// The first eigenvariable of this number.
pub fn eigen_named(names: &Names, number: u32) -> Option<&(u32, Label)>
    ensures { option_map the_eigen (option_copied result)
        ≡ eigen_named (the_names names.now) number }
{
    names.eigens.named(number)
}

/// The first spare constant of this number.
pub fn spare_named(names: &Names, number: u32) -> Option<&(u32, Home)>
    ensures { option_map the_spare (option_copied result)
        ≡ spare_named (the_names names.now) number }
{
    names.spares.named(number)
}

fn home_holds(mark: Mark, home: &Home) -> bool
    ensures { result ≡ home_holds (the_character mark) (the_home home.now) }
{
    match home {
        Home::Anywhere => false,
        Home::At(label) => label.holds(mark),
    }
}

fn spare_allowed(problem: &Problem, home: &Home, at: &Label) -> bool
    ensures { result ≡ spare_allowed problem.now (the_home home.now) at.now }
{
    match home {
        Home::Anywhere => problem.common_spares(),
        Home::At(label) => label.is_home_at(problem.setting().domains(), at),
    }
}

fn passes_eigen(test: &LeafTest, number: u32) -> bool
    ensures { result ≡ the_test test.now (tree.eigen number) }
{
    match test {
        LeafTest::IsEigen(sought) => *sought == number,
        LeafTest::HasInHome(names, mark) => match eigen_named(names, number) {
            Some(name) => name.1.holds(*mark),
            None => false,
        },
        LeafTest::IsUnknown(names) => eigen_named(names, number).is_none(),
        LeafTest::IsForbidden(problem, names, label) => match eigen_named(names, number) {
            Some(name) => !name.1.is_home_at(problem.setting().domains(), label),
            None => true,
        },
    }
}

fn passes_spare(test: &LeafTest, number: u32) -> bool
    ensures { result ≡ the_test test.now (tree.spare number) }
{
    match test {
        LeafTest::IsEigen(_) => false,
        LeafTest::HasInHome(names, mark) => match spare_named(names, number) {
            Some(name) => home_holds(*mark, &name.1),
            None => false,
        },
        LeafTest::IsUnknown(names) => spare_named(names, number).is_none(),
        LeafTest::IsForbidden(problem, names, label) => match spare_named(names, number) {
            Some(name) => !spare_allowed(problem, &name.1, label),
            None => true,
        },
    }
}

fn passes_variable(test: &LeafTest, number: u32) -> bool
    ensures { result ≡ the_test test.now (tree.var number) }
{
    match test {
        LeafTest::IsEigen(_) | LeafTest::HasInHome(_, _) | LeafTest::IsUnknown(_) => false,
        LeafTest::IsForbidden(_, _, _) => true,
    }
}

fn passes(test: &LeafTest, item: RowItem) -> bool
    ensures { (rest : List Item) → any_item (the_test test.now) (item ∷ rest)
        ≡ (result || any_item (the_test test.now) rest) }
{
    match item {
        RowItem::Var(number) => passes_variable(test, number),
        RowItem::Fun(_, _) => false,
        RowItem::Eigen(number) => passes_eigen(test, number),
        RowItem::Spare(number) => passes_spare(test, number),
    }
}

/// Whether some leaf of the term in a row passes the test.
pub fn any_leaf_in_row(test: &LeafTest, row: &TermRow) -> bool
    ensures { result ≡ any_leaf (the_test test.now) row.now }
{
    for item in row.items() {
        if passes(test, *item) {
            return true;
        }
    }
    false
}

// Whether some leaf of the term passes the test.
#[cycle(leaves)]
fn any_leaf(test: &LeafTest, t: &Term) -> bool
    ensures { result ≡ any_leaf (the_test test.now) (the_term t.now) }
{
    match t {
        Term::Var(number) => passes_variable(test, *number),
        Term::Fun(_, args) => any_leaf_of(test, args),
        Term::Eigen(number) => passes_eigen(test, *number),
        Term::Spare(number) => passes_spare(test, *number),
    }
}

#[cycle(leaves)]
#[tactic(auto, using(formula_core::specs::TermFalls::falling))]
fn any_leaf_of(test: &LeafTest, ts: &Terms) -> bool
    ensures { result ≡ any_leaf_of (the_test test.now) (terms_tree ts.now) }
{
    for item in ts.items() {
        if any_leaf(test, item) {
            return true;
        }
    }
    false
}

/// Whether some leaf of a term of the formula passes the test.
pub fn any_leaf_in(test: &LeafTest, f: &Formula) -> bool
    ensures { result ≡ any_leaf_in (the_test test.now) (the_formula f.now) }
{
    match f {
        Formula::Atom(_, args) => any_leaf_of(test, args),
        Formula::And(a, b) | Formula::Or(a, b) | Formula::Imp(a, b) => {
            any_leaf_in(test, a) || any_leaf_in(test, b)
        }
        Formula::Not(a) | Formula::All(a) | Formula::Ex(a) | Formula::Nec(a) | Formula::Poss(a) => {
            any_leaf_in(test, a)
        }
    }
}
