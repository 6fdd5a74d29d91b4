//! Whether parts that come from outside are those of a problem.

ghost use Rattle.std.specs.Prelude.{◌≡◌, ◌+◌, ◌<◌, ◌≤◌, ◌&&◌, map, suc};
ghost use Rattle.std.specs.List.{list_all};
ghost use Rattle.calculus.specs.declared.limits.TheConstants.{MAX_NESTING};
ghost use Rattle.calculus.specs.Lists.{terms_tree};
ghost use Rattle.calculus.specs.Measures.{nesting};
ghost use Rattle.calculus.specs.Problems as problems;
ghost use Rattle.calculus.specs.Skolem.{has_function};
ghost use Rattle.calculus.specs.Syntax.{arity_of};
ghost use Rattle.formula_core.specs.FormulaView.{the_formula};
ghost use Rattle.formula_core.specs.SymbolView.{the_symbol};
ghost use Rattle.formula_core.specs.TermView.{the_term};
ghost use Rattle.logic_rules.specs.ProblemView.{the_problem};

use crate::setting::{Logic, Setting};
use calculus::limits::{MAX_NESTING, MAX_NODES};
use cop_base::SymbolId;
use formula_core::{Formula, Symbol, SymbolClass, Symbols, Term, Terms, nesting, node_count};

fn is_name_byte(byte: u8) -> bool
    ensures { result ≡ problems.is_name_byte byte }
{
    (32 <= byte && byte <= 126) || 128 <= byte
}

fn are_name_bytes(bytes: &[u8]) -> bool
    ensures { result ≡ list_all problems.is_name_byte bytes.now }
{
    for byte in bytes {
        if !is_name_byte(*byte) {
            return false;
        }
    }
    true
}

fn is_name(bytes: &[u8]) -> bool
    ensures { result ≡ problems.is_name bytes.now }
{
    if bytes.is_empty() {
        return false;
    }
    are_name_bytes(bytes)
}

// Whether a symbol of the class may have the name and the arity.
fn name_fits(class: SymbolClass, name: &[u8], arity: u32) -> bool
    ensures { result ≡ problems.name_fits class name.now arity }
{
    match class {
        SymbolClass::Function | SymbolClass::Predicate => is_name(name),
        SymbolClass::Equality => name == b"=".as_slice() && arity == 2,
        SymbolClass::Truth => name == b"$$o".as_slice() && arity == 0,
    }
}

fn symbol_fits(s: &Symbol) -> bool
    ensures { result ≡ problems.symbol_fits (the_symbol s.now) }
{
    name_fits(s.class, s.name.bytes(), s.arity)
}

fn symbols_fit(symbols: &[Symbol]) -> bool
    ensures { result ≡ list_all problems.symbol_fits (map the_symbol symbols.now) }
{
    for s in symbols {
        if !symbol_fits(s) {
            return false;
        }
    }
    true
}

/// Whether the symbol is a function symbol with so many arguments.
pub fn has_function(symbols: &Symbols, f: SymbolId, count: usize) -> bool
    ensures { result ≡ has_function symbols.now f.0 count }
{
    if f.0 as usize >= symbols.len() {
        return false;
    }
    let symbol = symbols.get(f);
    symbol.class == SymbolClass::Function && symbol.arity as usize == count
}

fn is_atom_class(class: SymbolClass) -> bool
    ensures { result ≡ problems.is_atom_class class }
{
    match class {
        SymbolClass::Function => false,
        SymbolClass::Predicate | SymbolClass::Equality | SymbolClass::Truth => true,
    }
}

// Whether the symbol may stand in front of so many arguments in an atom.
fn has_predicate(symbols: &Symbols, p: SymbolId, count: usize) -> bool
    ensures { result ≡ problems.has_predicate symbols.now p.0 count }
{
    if p.0 as usize >= symbols.len() {
        return false;
    }
    let symbol = symbols.get(p);
    is_atom_class(symbol.class) && symbol.arity as usize == count
}

// Whether the term fits the symbols and is closed inside of so many quantifiers.
#[cycle(fitting)]
fn term_fits(symbols: &Symbols, depth: u64, term: &Term) -> bool
    ensures { result ≡ problems.term_fits_in symbols.now depth (the_term term.now) }
{
    match term {
        Term::Var(k) => u64::from(*k) < depth,
        Term::Fun(f, args) => {
            has_function(symbols, *f, args.len()) && terms_fit(symbols, depth, args)
        }
        Term::Eigen(_) | Term::Spare(_) => false,
    }
}

#[cycle(fitting)]
#[tactic(auto, using(formula_core::specs::TermFalls::falling))]
fn terms_fit(symbols: &Symbols, depth: u64, terms: &Terms) -> bool
    ensures { result ≡ problems.terms_fit_in symbols.now depth (terms_tree terms.now) }
{
    for term in terms.items() {
        if !term_fits(symbols, depth, term) {
            return false;
        }
    }
    true
}

fn atom_fits(symbols: &Symbols, depth: u64, p: SymbolId, args: &Terms) -> bool
    ensures { result ≡ (problems.has_predicate symbols.now p.0 (arity_of (terms_tree args.now))
        && problems.terms_fit_in symbols.now depth (terms_tree args.now)) }
{
    has_predicate(symbols, p, args.len()) && terms_fit(symbols, depth, args)
}

// Inside of one quantifier more.
fn one_more(depth: u64) -> u64
    requires { depth < MAX_NESTING }
    ensures { result ≡ suc depth }
{
    depth + 1
}

// Whether the formula fits the logic and the symbols and is closed inside of so many quantifiers.
fn formula_fits(logic: Logic, symbols: &Symbols, depth: u64, f: &Formula) -> bool
    requires { depth + nesting (the_formula f.now) ≤ MAX_NESTING }
    ensures { result ≡ problems.formula_fits logic symbols.now depth (the_formula f.now) }
{
    match f {
        Formula::Atom(p, args) => atom_fits(symbols, depth, *p, args),
        Formula::Not(a) => formula_fits(logic, symbols, depth, a),
        Formula::And(a, b) | Formula::Or(a, b) | Formula::Imp(a, b) => {
            formula_fits(logic, symbols, depth, a) && formula_fits(logic, symbols, depth, b)
        }
        Formula::All(a) | Formula::Ex(a) => formula_fits(logic, symbols, one_more(depth), a),
        Formula::Nec(a) | Formula::Poss(a) => {
            logic.is_modal() && formula_fits(logic, symbols, depth, a)
        }
    }
}

/// Whether these parts are a problem's. The nesting is asked for first, so the rest goes no deeper.
pub(crate) fn is_problem(setting: Setting, formula: &Formula, symbols: &Symbols) -> bool
    ensures { result ≡ problems.is_problem (the_problem setting formula.now symbols.now) }
{
    if nesting(formula) > MAX_NESTING {
        return false;
    }
    if node_count(formula, MAX_NODES) > MAX_NODES {
        return false;
    }
    if !symbols_fit(symbols.items()) {
        return false;
    }
    let _many = symbols.len(); // they are distinct and not too many
    formula_fits(setting.logic(), symbols, 0, formula)
}
