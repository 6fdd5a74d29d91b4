//! The formula of an item.

ghost use Rattle.std.specs.Prelude.{◌≡◌, ◌≤◌, ◌+◌, length, map, reverse, IfOk, OnOk};
ghost use Rattle.calculus.specs.Lists.{terms_tree};
ghost use Rattle.calculus.specs.Syntax as tree;
ghost use Rattle.formula_core.specs.FormulaView.{the_formula};
ghost use Rattle.formula_core.specs.SymbolView.{the_symbol};
ghost use Rattle.formula_core.specs.TermView.{the_term};
ghost use Rattle.problem_build.specs.EqualityAxioms.{for_all_times};
ghost use Rattle.problem_build.specs.Expansion.{argument_count, binary_formula, closed, equality_atom, expanded, expanded_term, expanded_terms, joined_chain, number_of, place_of, predicate_symbol, same_name, true_formula};
ghost use Rattle.problem_build.specs.NameCount.{name_count, term_list_name_count, term_name_count};
ghost use Rattle.problem_build.specs.Quantifying.{ex_times};
ghost use Rattle.tptp_reader.specs.Lists.{terms_tree as source_terms};
ghost use Rattle.tptp_reader.specs.SourceView.{the_source};
ghost use Rattle.tptp_reader.specs.TermView.{the_source_term};

use crate::chain::balanced;
use crate::name_set::push_names;
use crate::symbols::{equality_symbol, function_symbol, predicate_symbol, truth_symbol};
use crate::variables::free_variables;
use cop_base::{NoMemory, SymbolId, Text};
use formula_core::{Formula, Symbol, Symbols, Term, Terms};
use std::alloc::{AllocError, Global};
use tptp_reader::{BinaryKind, ChainKind, Source, SourceTerm, SourceTerms};

// The number of the symbol; that of the symbols where it is none of them.
fn number_of(symbols: &Symbols, symbol: &Symbol) -> SymbolId
    ensures { result.0 ≡ number_of symbols.now (the_symbol symbol.now) }
{
    let count = symbols.len() as u32;
    match symbols.find(symbol) {
        Some(id) => id,
        None => SymbolId(count),
    }
}

// How many quantifiers stand between the variable and its own; all of them where it has none.
fn variable_place(scope: &[Text], name: &Text) -> usize
    ensures place { result ≡ place_of (same_name name.now) (reverse scope.now) }
    ensures within { result ≤ length scope.now }
{
    let mut left = scope.len();
    while left > 0 {
        left -= 1;
        if *name == scope[left] {
            return scope.len() - 1 - left;
        }
    }
    scope.len()
}

// The same, where as many variables as are in scope have numbers of 32 bits.
fn variable(scope: &[Text], name: &Text) -> u32
    requires { length scope.now ≤ 4294967295 }
    ensures { result ≡ place_of (same_name name.now) (reverse scope.now) }
{
    variable_place(scope, name) as u32
}

#[cycle(term_of)]
fn term_of(
    alloc: Global,
    symbols: &Symbols,
    scope: &[Text],
    term: &SourceTerm,
) -> Result<Term, NoMemory>
    requires scope { length scope.now ≤ 4294967295 }
    requires names { term_name_count (the_source_term term.now) ≤ 4294967295 }
    ensures { IfOk result (λ t. the_term t ≡ expanded_term symbols.now (reverse scope.now) (the_source_term term.now)) }
{
    match term {
        SourceTerm::Var(x) => Ok(Term::Var(variable(scope, x))),
        SourceTerm::Fun(f, args) => {
            let symbol = function_symbol(alloc, f, args)?;
            let number = number_of(symbols, &symbol);
            let terms = terms_of(alloc, symbols, scope, args)?;
            Ok(Term::Fun(number, terms))
        }
    }
}

#[cycle(term_of)]
#[tactic(auto, using(crate::proofs::FallingLaws::falling, crate::proofs::NameCountLaws::counted))]
fn terms_of(
    alloc: Global,
    symbols: &Symbols,
    scope: &[Text],
    terms: &SourceTerms,
) -> Result<Terms, NoMemory>
    requires scope { length scope.now ≤ 4294967295 }
    requires names { term_list_name_count terms.now ≤ 4294967295 }
    ensures { IfOk result (λ ts. terms_tree ts ≡ expanded_terms symbols.now (reverse scope.now) (source_terms terms.now)) }
{
    let mut made = Terms::new(alloc);
    for term in terms.items() {
        let term = term_of(alloc, symbols, scope, term)?;
        made.push(term)?;
    }
    Ok(made)
}

pub fn equality_atom(
    alloc: Global,
    symbols: &Symbols,
    left: Term,
    right: Term,
) -> Result<Formula, NoMemory>
    ensures { IfOk result (λ f. the_formula f ≡ equality_atom symbols.now (the_term left) (the_term right)) }
{
    let equality = equality_symbol(alloc)?;
    let mut args = Terms::new(alloc);
    args.push(left)?;
    args.push(right)?;
    Ok(Formula::Atom(number_of(symbols, &equality), args))
}

fn equation(
    alloc: Global,
    symbols: &Symbols,
    scope: &[Text],
    left: &SourceTerm,
    right: &SourceTerm,
) -> Result<Formula, NoMemory>
    requires scope { length scope.now ≤ 4294967295 }
    requires names { term_name_count (the_source_term left.now) + term_name_count (the_source_term right.now) ≤ 4294967295 }
    ensures { IfOk result (λ f. the_formula f ≡ equality_atom symbols.now
        (expanded_term symbols.now (reverse scope.now) (the_source_term left.now))
        (expanded_term symbols.now (reverse scope.now) (the_source_term right.now))) }
{
    let left = term_of(alloc, symbols, scope, left)?;
    let right = term_of(alloc, symbols, scope, right)?;
    equality_atom(alloc, symbols, left, right)
}

// The negation of an equation.
fn unequal(
    alloc: Global,
    symbols: &Symbols,
    scope: &[Text],
    left: &SourceTerm,
    right: &SourceTerm,
) -> Result<Formula, NoMemory>
    requires scope { length scope.now ≤ 4294967295 }
    requires names { term_name_count (the_source_term left.now) + term_name_count (the_source_term right.now) ≤ 4294967295 }
    ensures { IfOk result (λ f. the_formula f ≡ tree.neg (equality_atom symbols.now
        (expanded_term symbols.now (reverse scope.now) (the_source_term left.now))
        (expanded_term symbols.now (reverse scope.now) (the_source_term right.now)))) }
{
    let equal = equation(alloc, symbols, scope, left, right)?;
    Formula::not(alloc, equal)
}

fn atom(
    alloc: Global,
    symbols: &Symbols,
    scope: &[Text],
    name: &Text,
    args: &SourceTerms,
) -> Result<Formula, NoMemory>
    requires scope { length scope.now ≤ 4294967295 }
    requires names { term_list_name_count args.now ≤ 4294967295 }
    ensures { IfOk result (λ f. the_formula f
        ≡ tree.atom (number_of symbols.now (predicate_symbol name.now (argument_count (source_terms args.now))))
        (expanded_terms symbols.now (reverse scope.now) (source_terms args.now))) }
{
    let symbol = predicate_symbol(alloc, name, args)?;
    let number = number_of(symbols, &symbol);
    let terms = terms_of(alloc, symbols, scope, args)?;
    Ok(Formula::Atom(number, terms))
}

fn true_formula(alloc: Global, symbols: &Symbols) -> Result<Formula, NoMemory>
    ensures { IfOk result (λ f. the_formula f ≡ true_formula symbols.now) }
{
    let truth = truth_symbol(alloc)?;
    let number = number_of(symbols, &truth);
    let left = Formula::Atom(number, Terms::new(alloc));
    let right = Formula::Atom(number, Terms::new(alloc));
    Formula::imp(alloc, left, right)
}

fn false_formula(alloc: Global, symbols: &Symbols) -> Result<Formula, NoMemory>
    ensures { IfOk result (λ f. the_formula f ≡ tree.neg (true_formula symbols.now)) }
{
    let truth = true_formula(alloc, symbols)?;
    Formula::not(alloc, truth)
}

// The implication between copies of both.
fn implication(alloc: Global, a: &Formula, b: &Formula) -> Result<Formula, NoMemory>
    ensures { IfOk result (λ f. the_formula f ≡ tree.imp (the_formula a.now) (the_formula b.now)) }
{
    let given = a.copy(alloc)?;
    let shown = b.copy(alloc)?;
    Formula::imp(alloc, given, shown)
}

// Both implications.
fn equivalence(alloc: Global, a: Formula, b: Formula) -> Result<Formula, NoMemory>
    ensures { IfOk result (λ f. the_formula f ≡ binary_formula BinaryKind.Iff (the_formula a) (the_formula b)) }
{
    let back = implication(alloc, &b, &a)?;
    let forth = Formula::imp(alloc, a, b)?;
    Formula::and(alloc, forth, back)
}

fn binary_formula(
    alloc: Global,
    kind: BinaryKind,
    a: Formula,
    b: Formula,
) -> Result<Formula, NoMemory>
    ensures { IfOk result (λ f. the_formula f ≡ binary_formula kind (the_formula a) (the_formula b)) }
{
    match kind {
        BinaryKind::Imp => Formula::imp(alloc, a, b),
        BinaryKind::If => Formula::imp(alloc, b, a),
        BinaryKind::Iff => equivalence(alloc, a, b),
        BinaryKind::Xor => {
            let both = equivalence(alloc, a, b)?;
            Formula::not(alloc, both)
        }
        BinaryKind::Nor => {
            let either = Formula::or(alloc, a, b)?;
            Formula::not(alloc, either)
        }
        BinaryKind::Nand => {
            let both = Formula::and(alloc, a, b)?;
            Formula::not(alloc, both)
        }
    }
}

/// So many universal quantifiers before the formula.
pub fn all_times(alloc: Global, count: usize, body: Formula) -> Result<Formula, NoMemory>
    ensures { IfOk result (λ f. the_formula f ≡ for_all_times count (the_formula body)) }
{
    let mut formula = body;
    for i in 0..count {
        formula = Formula::all(alloc, formula)?;
    }
    Ok(formula)
}

fn ex_times(alloc: Global, count: usize, body: Formula) -> Result<Formula, NoMemory>
    ensures { IfOk result (λ f. the_formula f ≡ ex_times count (the_formula body)) }
{
    let mut formula = body;
    for i in 0..count {
        formula = Formula::ex(alloc, formula)?;
    }
    Ok(formula)
}

/// The formulas joined in halves.
pub fn joined_chain(
    alloc: Global,
    symbols: &Symbols,
    kind: ChainKind,
    formulas: Vec<Formula>,
) -> Result<Formula, NoMemory>
    ensures { IfOk result (λ f. the_formula f ≡ joined_chain kind symbols.now (map the_formula formulas.items)) }
{
    let mut formulas = formulas;
    let count = formulas.len();
    if count == 0 {
        return true_formula(alloc, symbols);
    }
    let joined = balanced(alloc, kind, &mut formulas, count)?;
    Ok(joined)
}

// The formula inside of quantifiers over the variables of the scope, the innermost last.
#[tactic(auto, using(crate::proofs::FallingLaws::falling, crate::proofs::NameCountLaws::counted))]
fn expand(
    alloc: Global,
    symbols: &Symbols,
    scope: &mut Vec<Text>,
    source: &Source,
) -> Result<Formula, NoMemory>
    requires { length scope.old.items + name_count (the_source source.now) ≤ 4294967295 }
    ensures scope { OnOk result (scope.new.items ≡ scope.old.items) }
    ensures expanded { IfOk result (λ f. the_formula f
        ≡ expanded symbols.now (reverse scope.old.items) (the_source source.now)) }
{
    match source {
        Source::Atom(p, args) => atom(alloc, symbols, scope, p, args),
        Source::True => true_formula(alloc, symbols),
        Source::False => false_formula(alloc, symbols),
        Source::Equal(s, t) => equation(alloc, symbols, scope, s, t),
        Source::Unequal(s, t) => unequal(alloc, symbols, scope, s, t),
        Source::Not(a) => {
            let inner = expand(alloc, symbols, scope, a.get())?;
            Formula::not(alloc, inner)
        }
        Source::Nec(a) => {
            let inner = expand(alloc, symbols, scope, a.get())?;
            Formula::nec(alloc, inner)
        }
        Source::Poss(a) => {
            let inner = expand(alloc, symbols, scope, a.get())?;
            Formula::poss(alloc, inner)
        }
        Source::Binary(kind, a, b) => {
            let left = expand(alloc, symbols, scope, a.get())?;
            let right = expand(alloc, symbols, scope, b.get())?;
            binary_formula(alloc, *kind, left, right)
        }
        Source::Chain(kind, units) => {
            let mut formulas = Vec::new(alloc);
            for unit in units.items() {
                let formula = expand(alloc, symbols, scope, unit)?;
                formulas.push(formula)?;
            }
            let joined = joined_chain(alloc, symbols, *kind, formulas)?;
            Ok(joined)
        }
        Source::All(xs, a) => {
            let outer = scope.len();
            push_names(alloc, scope, xs.items())?;
            let body = expand(alloc, symbols, scope, a.get())?;
            scope.truncate(outer);
            let formula = all_times(alloc, xs.items().len(), body)?;
            Ok(formula)
        }
        Source::Ex(xs, a) => {
            let outer = scope.len();
            push_names(alloc, scope, xs.items())?;
            let body = expand(alloc, symbols, scope, a.get())?;
            scope.truncate(outer);
            let formula = ex_times(alloc, xs.items().len(), body)?;
            Ok(formula)
        }
    }
}

/// The formula of an item, with universal quantifiers for its free variables round it.
pub fn closed(alloc: Global, symbols: &Symbols, source: &Source) -> Result<Formula, NoMemory>
    requires { name_count (the_source source.now) ≤ 16777216 }
    ensures { IfOk result (λ f. the_formula f ≡ closed symbols.now (the_source source.now)) }
{
    let free = free_variables(alloc, source)?;
    let mut scope = free.into_names(alloc)?;
    let count = scope.len();
    let body = expand(alloc, symbols, &mut scope, source)?;
    let formula = all_times(alloc, count, body)?;
    Ok(formula)
}
