//! Goedel's translation of problems.

ghost use Rattle.std.specs.Prelude.{◌≡◌, ◌↔◌, ◌<◌, ◌≤◌, ◌++◌, ◌∷◌, [], Contains, Err, IfOk, OnOk, length};
ghost use Rattle.calculus.specs.declared.setting.Logic.TheVariants.{Intuitionistic};
ghost use Rattle.calculus.specs.Measures.{nesting, node_count};
ghost use Rattle.calculus.specs.Translation.{translated_problem, translation_of};
ghost use Rattle.formula_core.specs.FormulaView.{the_formula};
ghost use Rattle.formula_core.specs.SymbolView.{the_symbol};
ghost use Rattle.godel_transfer.specs.TranslationParts.{over_part, over_parts};
ghost use Rattle.godel_transfer.specs.declared.fault.TransferFault.TheVariants as fault;

use crate::fault::TransferFault;
use crate::measures::refusal;
use cop_base::{NoMemory, Text};
use formula_core::{AddFault, Formula, Symbol, Symbols};
use logic_rules::{Domains, Logic, Problem, Setting};
use std::alloc::{AllocError, Global};

// The connective of `f` over another part, with its box. An atom or a formula of two parts has none
// to be exchanged.
fn over_part(alloc: Global, f: &Formula, part: Formula) -> Result<Formula, NoMemory>
    ensures { IfOk result (λ g. the_formula g ≡ over_part (the_formula f.now) (the_formula part)) }
{
    match f {
        Formula::Not(_) => Formula::nec(alloc, Formula::not(alloc, part)?),
        Formula::All(_) => Formula::nec(alloc, Formula::all(alloc, part)?),
        Formula::Ex(_) => Formula::ex(alloc, part),
        Formula::Nec(_) => Formula::nec(alloc, part),
        Formula::Poss(_) => Formula::poss(alloc, part),
        Formula::Atom(_, _) | Formula::And(_, _) | Formula::Or(_, _) | Formula::Imp(_, _) => {
            Ok(part)
        }
    }
}

// The connective of `f` over two other parts, with its box, where it has two.
fn over_parts(alloc: Global, f: &Formula, a: Formula, b: Formula) -> Result<Formula, NoMemory>
    ensures { IfOk result (λ g. the_formula g
        ≡ over_parts (the_formula f.now) (the_formula a) (the_formula b)) }
{
    match f {
        Formula::And(_, _) => Formula::and(alloc, a, b),
        Formula::Or(_, _) => Formula::or(alloc, a, b),
        Formula::Imp(_, _) => Formula::nec(alloc, Formula::imp(alloc, a, b)?),
        Formula::Atom(_, _)
        | Formula::Not(_)
        | Formula::All(_)
        | Formula::Ex(_)
        | Formula::Nec(_)
        | Formula::Poss(_) => Ok(a),
    }
}

// A box before an atom, a negation, an implication and a universal quantifier.
fn translation_of(alloc: Global, f: &Formula) -> Result<Formula, NoMemory>
    ensures { IfOk result (λ g. the_formula g ≡ translation_of (the_formula f.now)) }
{
    match f {
        Formula::Atom(_, _) => Formula::nec(alloc, f.copy(alloc)?),
        Formula::And(a, b) | Formula::Or(a, b) | Formula::Imp(a, b) => {
            let left = translation_of(alloc, a)?;
            let right = translation_of(alloc, b)?;
            over_parts(alloc, f, left, right)
        }
        Formula::Not(a) | Formula::All(a) | Formula::Ex(a) | Formula::Nec(a) | Formula::Poss(a) => {
            let part = translation_of(alloc, a)?;
            over_part(alloc, f, part)
        }
    }
}

fn copy_symbol(alloc: Global, s: &Symbol) -> Result<Symbol, NoMemory>
    ensures { IfOk result (λ c. the_symbol c ≡ the_symbol s.now) }
{
    let name = Text::new(alloc, s.name.bytes())?;
    Ok(Symbol {
        name,
        class: s.class,
        arity: s.arity,
    })
}

// Adds a copy of a symbol that is not there yet.
fn add_copy(alloc: Global, copied: &mut Symbols, s: &Symbol) -> Result<(), NoMemory>
    requires new { ¬ (Contains copied.old (the_symbol s.now)) }
    requires room { length copied.old < 65536 }
    ensures { OnOk result (copied.new ≡ copied.old ++ the_symbol s.now ∷ []) }
{
    let symbol = copy_symbol(alloc, s)?;
    match copied.add(symbol) {
        Ok(_) => Ok(()),
        Err(AddFault::Full) => unreachable!(),
        Err(AddFault::NoMemory) => Err(NoMemory),
    }
}

fn copy_symbols(alloc: Global, symbols: &Symbols) -> Result<Symbols, NoMemory>
    ensures { IfOk result (λ c. c ≡ symbols.now) }
{
    let _count = symbols.len(); // tells that they are distinct, and at most 65,536
    let mut copied = Symbols::new(alloc);
    for s in symbols.items() {
        add_copy(alloc, &mut copied, s)?;
    }
    Ok(copied)
}

// The translated problem, where its formula passes no limit.
fn translated(alloc: Global, problem: &Problem) -> Result<Problem, NoMemory>
    requires intuitionistic { problem.now.setting.logic ≡ Intuitionistic }
    requires nests { nesting (translation_of problem.now.formula) ≤ 1000 }
    requires nodes { node_count (translation_of problem.now.formula) ≤ 4000000 }
    ensures { IfOk result (λ p. p ≡ translated_problem problem.now) }
{
    let translation = translation_of(alloc, problem.formula())?;
    let symbols = copy_symbols(alloc, problem.symbols())?;
    let setting = Setting::new(Logic::S4, Domains::Cumulative);
    Ok(Problem::new(setting, translation, symbols))
}

/// The problem of S4 with cumulative domains whose formula is the translation of the problem's
/// formula, over the same symbols. It is refused before anything is built.
pub fn translate(alloc: Global, problem: &Problem) -> Result<Problem, TransferFault>
    requires intuitionistic { problem.now.setting.logic ≡ Intuitionistic }
    ensures translated { IfOk result (λ p. p ≡ translated_problem problem.now) }
    ensures deep { (result ≡ Err fault.NestingTooDeep)
        ↔ (1000 < nesting (translation_of problem.now.formula)) }
    ensures large { (result ≡ Err fault.FormulaTooLarge)
        ↔ ((nesting (translation_of problem.now.formula) ≤ 1000)
        × (4000000 < node_count (translation_of problem.now.formula))) }
{
    match refusal(problem.formula()) {
        Some(fault) => Err(fault),
        None => {
            let problem = translated(alloc, problem)?;
            Ok(problem)
        }
    }
}
