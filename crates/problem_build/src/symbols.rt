//! The symbols of formulas, in the order in which they first stand in the expanded formulas.

ghost use Rattle.std.specs.Prelude.{◌≡◌, ◌≤◌, ◌+◌, ◌++◌, ◌∷◌, [], List, IfOk, if◌then◌else◌};
ghost use Rattle.calculus.specs.Syntax as tree;
ghost use Rattle.formula_core.specs.SymbolView.{the_symbol};
ghost use Rattle.problem_build.specs.Adding.{Adds};
ghost use Rattle.problem_build.specs.Expansion.{argument_count, binary_symbols, equality_symbol, function_symbol, predicate_symbol, symbols_in, term_symbols, terms_symbols, truth_symbol};
ghost use Rattle.problem_build.specs.NameCount.{name_count, term_list_name_count, term_name_count};
ghost use Rattle.tptp_reader.specs.Lists.{terms_tree};
ghost use Rattle.tptp_reader.specs.SourceView.{the_source};
ghost use Rattle.tptp_reader.specs.TermView.{the_source_term};

use cop_base::{NoMemory, Text};
use formula_core::{AddFault, Symbol, SymbolClass, Symbols};
use std::alloc::Global;
use tptp_reader::{BinaryKind, Source, SourceTerm, SourceTerms};

fn new_symbol(
    alloc: Global,
    name: &[u8],
    class: SymbolClass,
    arity: u32,
) -> Result<Symbol, NoMemory>
    ensures { IfOk result (λ s. the_symbol s ≡ record { name = name.now; class = class; arity = arity }) }
{
    Ok(Symbol {
        name: Text::new(alloc, name)?,
        class,
        arity,
    })
}

/// The symbol `=`.
pub fn equality_symbol(alloc: Global) -> Result<Symbol, NoMemory>
    ensures { IfOk result (λ s. the_symbol s ≡ equality_symbol) }
{
    new_symbol(alloc, b"=", SymbolClass::Equality, 2)
}

/// The symbol `$$o`.
pub fn truth_symbol(alloc: Global) -> Result<Symbol, NoMemory>
    ensures { IfOk result (λ s. the_symbol s ≡ truth_symbol) }
{
    new_symbol(alloc, b"$$o", SymbolClass::Truth, 0)
}

fn arity_of(args: &SourceTerms) -> u32
    requires { term_list_name_count args.now ≤ 4294967295 }
    ensures { result ≡ argument_count (terms_tree args.now) }
{
    args.items().len() as u32
}

/// The function symbol of this name with so many arguments.
pub fn function_symbol(alloc: Global, name: &Text, args: &SourceTerms) -> Result<Symbol, NoMemory>
    requires { term_list_name_count args.now ≤ 4294967295 }
    ensures { IfOk result (λ s. the_symbol s ≡ function_symbol name.now (argument_count (terms_tree args.now))) }
{
    let arity = arity_of(args);
    let symbol = new_symbol(alloc, name.bytes(), SymbolClass::Function, arity)?;
    Ok(symbol)
}

/// The predicate symbol of this name with so many arguments.
pub fn predicate_symbol(alloc: Global, name: &Text, args: &SourceTerms) -> Result<Symbol, NoMemory>
    requires { term_list_name_count args.now ≤ 4294967295 }
    ensures { IfOk result (λ s. the_symbol s ≡ predicate_symbol name.now (argument_count (terms_tree args.now))) }
{
    let arity = arity_of(args);
    let symbol = new_symbol(alloc, name.bytes(), SymbolClass::Predicate, arity)?;
    Ok(symbol)
}

fn add(symbols: &mut Symbols, symbol: Symbol) -> Result<(), AddFault>
    ensures { Adds symbols.old symbols.new (the_symbol symbol ∷ []) result }
{
    match symbols.add(symbol) {
        Ok(_) => Ok(()),
        Err(AddFault::Full) => Err(AddFault::Full),
        Err(AddFault::NoMemory) => Err(AddFault::NoMemory),
    }
}

#[cycle(add_term)]
fn add_term(alloc: Global, symbols: &mut Symbols, term: &SourceTerm) -> Result<(), AddFault>
    requires { term_name_count (the_source_term term.now) ≤ 4294967295 }
    ensures { Adds symbols.old symbols.new (term_symbols (the_source_term term.now)) result }
{
    match term {
        SourceTerm::Var(_) => Ok(()),
        SourceTerm::Fun(f, args) => {
            let Ok(symbol) = function_symbol(alloc, f, args) else {
                return Err(AddFault::NoMemory);
            };
            if let Err(fault) = add(symbols, symbol) {
                return Err(fault);
            }
            add_terms(alloc, symbols, args)
        }
    }
}

#[cycle(add_term)]
#[tactic(auto, using(crate::proofs::FallingLaws::falling, crate::proofs::NameCountLaws::counted))]
fn add_terms(alloc: Global, symbols: &mut Symbols, terms: &SourceTerms) -> Result<(), AddFault>
    requires { term_list_name_count terms.now ≤ 4294967295 }
    ensures { Adds symbols.old symbols.new (terms_symbols (terms_tree terms.now)) result }
{
    for term in terms.items() {
        if let Err(fault) = add_term(alloc, symbols, term) {
            return Err(fault);
        }
    }
    Ok(())
}

fn add_equation(
    alloc: Global,
    symbols: &mut Symbols,
    left: &SourceTerm,
    right: &SourceTerm,
) -> Result<(), AddFault>
    requires { term_name_count (the_source_term left.now) + term_name_count (the_source_term right.now) ≤ 4294967295 }
    ensures { Adds symbols.old symbols.new
        (equality_symbol ∷ (term_symbols (the_source_term left.now) ++ term_symbols (the_source_term right.now))) result }
{
    let Ok(symbol) = equality_symbol(alloc) else {
        return Err(AddFault::NoMemory);
    };
    if let Err(fault) = add(symbols, symbol) {
        return Err(fault);
    }
    if let Err(fault) = add_term(alloc, symbols, left) {
        return Err(fault);
    }
    add_term(alloc, symbols, right)
}

// Whether the right side stands first when it is expanded.
fn is_turned(kind: BinaryKind) -> bool
    ensures { (xs ys : List tree.Symbol) → binary_symbols kind xs ys ≡ (if result then ys ++ xs else xs ++ ys) }
{
    match kind {
        BinaryKind::If => true,
        BinaryKind::Imp | BinaryKind::Iff | BinaryKind::Xor | BinaryKind::Nor | BinaryKind::Nand =>
            false,
    }
}

/// Adds those of the formula's symbols that are new. `Full` where there are too many.
#[tactic(auto, using(crate::proofs::FallingLaws::falling, crate::proofs::NameCountLaws::counted))]
pub fn add_symbols(alloc: Global, symbols: &mut Symbols, source: &Source) -> Result<(), AddFault>
    requires { name_count (the_source source.now) ≤ 4294967295 }
    ensures { Adds symbols.old symbols.new (symbols_in (the_source source.now)) result }
{
    match source {
        Source::Atom(p, args) => {
            let Ok(symbol) = predicate_symbol(alloc, p, args) else {
                return Err(AddFault::NoMemory);
            };
            if let Err(fault) = add(symbols, symbol) {
                return Err(fault);
            }
            add_terms(alloc, symbols, args)
        }
        Source::True | Source::False => {
            let Ok(symbol) = truth_symbol(alloc) else {
                return Err(AddFault::NoMemory);
            };
            add(symbols, symbol)
        }
        Source::Equal(s, t) | Source::Unequal(s, t) => add_equation(alloc, symbols, s, t),
        Source::Binary(kind, a, b) => {
            if is_turned(*kind) {
                if let Err(fault) = add_symbols(alloc, symbols, b.get()) {
                    return Err(fault);
                }
                return add_symbols(alloc, symbols, a.get());
            }
            if let Err(fault) = add_symbols(alloc, symbols, a.get()) {
                return Err(fault);
            }
            add_symbols(alloc, symbols, b.get())
        }
        Source::Chain(_, units) => {
            for unit in units.items() {
                if let Err(fault) = add_symbols(alloc, symbols, unit) {
                    return Err(fault);
                }
            }
            Ok(())
        }
        Source::Not(a) | Source::All(_, a) | Source::Ex(_, a) | Source::Nec(a) | Source::Poss(a) =>
            add_symbols(alloc, symbols, a.get()),
    }
}
