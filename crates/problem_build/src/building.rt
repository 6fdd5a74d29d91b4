//! From files to a problem.

ghost use Rattle.std.specs.Prelude.{◌≡◌, ◌≤◌, ◌&&◌, ◌++◌, List, Err, IfOk, IfErr, IfSome, IsTrue, Result, true, not, map, option_map};
ghost use Rattle.std.specs.List.{list_all, list_any};
ghost use Rattle.calculus.specs.Equality.{symbol_eq};
ghost use Rattle.calculus.specs.Problems.{formula_fits, is_modal, symbol_fits};
ghost use Rattle.calculus.specs.Syntax as tree;
ghost use Rattle.cop_base.specs.Outside.{Files, Rose};
ghost use Rattle.cop_base.specs.Reads as seen;
ghost use Rattle.cop_base.specs.Reads.{AgreesSince, EndsWith, ReadsOn};
ghost use Rattle.formula_core.specs.FormulaView.{the_formula};
ghost use Rattle.logic_rules.specs.SettingView.{the_setting};
ghost use Rattle.problem_build.specs.Answers.{the_answer};
ghost use Rattle.problem_build.specs.Building.{IsProblemOf, WalkFetches, axioms_of, limited, problem_formula, problem_of};
ghost use Rattle.problem_build.specs.EqualityAxioms.{equality_axioms};
ghost use Rattle.problem_build.specs.Expansion.{closed, equality_symbol};
ghost use Rattle.problem_build.specs.Fetching.{ReadsOnly};
ghost use Rattle.problem_build.specs.Measuring.{both_nodes, first_measured, first_of, listed_if, measured};
ghost use Rattle.problem_build.specs.NameCount.{is_narrow, is_short};
ghost use Rattle.problem_build.specs.Occurring.{HasItsSymbols};
ghost use Rattle.problem_build.specs.Outside.{is_inside};
ghost use Rattle.problem_build.specs.Refusals as refusal;
ghost use Rattle.problem_build.specs.Refusals.{Refusal};
ghost use Rattle.problem_build.specs.Passing.{AreRead, the_passed};
ghost use Rattle.tptp_reader.specs.SourceView.{the_source};

use crate::axioms::{axioms_nodes, equality_axioms};
use crate::counts::sum;
use crate::expansion::joined_chain;
use crate::fault::{BuildFault, Cause};
use crate::faults::bad;
use crate::items::{
    Parts, conjecture, conjecture_nodes, items_nodes, parts_of, push_closed, symbols_of,
};
use crate::passed::Passed;
use crate::symbols::equality_symbol;
use crate::walk::walk_files;
use calculus::limits::MAX_NODES;
use cop_base::{Library, NoMemory, Text};
use formula_core::{AddFault, Formula, Symbols};
use logic_rules::{Logic, Problem, Setting};
use std::alloc::Global;
use tptp_reader::ChainKind;

#[tactic(auto, using(crate::proofs::ListLaws::searched))]
fn has_equality(alloc: Global, symbols: &Symbols) -> Result<bool, NoMemory>
    ensures { IfOk result (λ b. b ≡ list_any (symbol_eq equality_symbol) symbols.now) }
{
    let equality = equality_symbol(alloc)?;
    match symbols.find(&equality) {
        Some(_) => Ok(true),
        None => Ok(false),
    }
}

// Whether the problem has axioms of equality.
fn has_axioms(alloc: Global, logic: Logic, symbols: &Symbols) -> Result<bool, NoMemory>
    ensures { IfOk result (λ b. b ≡ (not (is_modal logic) && list_any (symbol_eq equality_symbol) symbols.now)) }
{
    if logic.is_modal() {
        return Ok(false);
    }
    let has = has_equality(alloc, symbols)?;
    Ok(has)
}

// The nodes of the axioms, if there are to be any.
fn nodes_of_axioms(
    alloc: Global,
    symbols: &Symbols,
    with_axioms: bool,
) -> Result<Option<u64>, NoMemory>
    requires { IsTrue (list_all is_narrow symbols.now) }
    ensures { IfOk result (λ n. n ≡ measured (listed_if with_axioms (equality_axioms symbols.now))) }
{
    if with_axioms {
        let nodes = axioms_nodes(alloc, symbols)?;
        return Ok(nodes);
    }
    Ok(Some(0))
}

// The nodes of the problem's formula, up to one more than there may be; `None` where a part of it
// is nested too deep.
#[tactic(auto, using(crate::proofs::MeasuringLaws::three))]
fn problem_nodes(
    alloc: Global,
    symbols: &Symbols,
    with_axioms: bool,
    parts: &Parts,
) -> Result<Option<u64>, NoMemory>
    requires { IsTrue (list_all is_narrow symbols.now) }
    ensures { IfOk result (λ n. n ≡ both_nodes
        (both_nodes (measured (listed_if with_axioms (equality_axioms symbols.now)))
        (measured (map (closed symbols.now) (map the_source parts.now.premises.items))))
        (first_measured (map (closed symbols.now) (map the_source parts.now.conjectures.items)))) }
{
    let of_axioms = nodes_of_axioms(alloc, symbols, with_axioms)?;
    let Some(axioms) = of_axioms else {
        return Ok(None);
    };
    let of_premises = items_nodes(alloc, &parts.premises)?;
    let Some(premises) = of_premises else {
        return Ok(None);
    };
    let of_conjecture = conjecture_nodes(alloc, &parts.conjectures)?;
    let Some(shown) = of_conjecture else {
        return Ok(None);
    };
    Ok(Some(sum(sum(axioms, premises), shown)))
}

// The axioms of equality, if there are to be any.
fn asked_axioms(
    alloc: Global,
    symbols: &Symbols,
    with_axioms: bool,
) -> Result<Vec<Formula>, NoMemory>
    requires { IsTrue (list_all is_narrow symbols.now) }
    ensures { IfOk result (λ fs. map the_formula fs.items ≡ listed_if with_axioms (equality_axioms symbols.now)) }
{
    if with_axioms {
        let axioms = equality_axioms(alloc, symbols)?;
        return Ok(axioms);
    }
    Ok(Vec::new(alloc))
}

// These axioms, and behind them the formulas of the premises.
fn premise_formulas(
    alloc: Global,
    symbols: &Symbols,
    with_axioms: bool,
    parts: &Parts,
) -> Result<Vec<Formula>, NoMemory>
    requires arities { IsTrue (list_all is_narrow symbols.now) }
    requires premises { IsTrue (list_all is_short (map the_source parts.now.premises.items)) }
    ensures { IfOk result (λ fs. map the_formula fs.items ≡ listed_if with_axioms (equality_axioms symbols.now)
        ++ map (closed symbols.now) (map the_source parts.now.premises.items)) }
{
    let mut premises = asked_axioms(alloc, symbols, with_axioms)?;
    push_closed(alloc, symbols, &parts.premises, &mut premises)?;
    Ok(premises)
}

fn problem_formula(
    alloc: Global,
    symbols: &Symbols,
    premises: Vec<Formula>,
    conjecture: Option<Formula>,
) -> Result<Option<Formula>, NoMemory>
    ensures { IfOk result (λ f. (cs : List tree.Formula) → option_map the_formula conjecture ≡ first_of cs
        → option_map the_formula f ≡ problem_formula (map the_formula premises.items) cs) }
{
    if premises.as_slice().is_empty() {
        return Ok(conjecture);
    }
    let given = joined_chain(alloc, symbols, ChainKind::And, premises)?;
    match conjecture {
        None => {
            let formula = Formula::not(alloc, given)?;
            Ok(Some(formula))
        }
        Some(shown) => {
            let formula = Formula::imp(alloc, given, shown)?;
            Ok(Some(formula))
        }
    }
}

// The formula of the problem, if there is one.
fn formula_of(
    alloc: Global,
    symbols: &Symbols,
    with_axioms: bool,
    parts: &Parts,
) -> Result<Option<Formula>, NoMemory>
    requires arities { IsTrue (list_all is_narrow symbols.now) }
    requires premises { IsTrue (list_all is_short (map the_source parts.now.premises.items)) }
    requires conjectures { IsTrue (list_all is_short (map the_source parts.now.conjectures.items)) }
    ensures { IfOk result (λ f. option_map the_formula f ≡ problem_formula
        (listed_if with_axioms (equality_axioms symbols.now)
        ++ map (closed symbols.now) (map the_source parts.now.premises.items))
        (map (closed symbols.now) (map the_source parts.now.conjectures.items))) }
{
    let given = premise_formulas(alloc, symbols, with_axioms, parts)?;
    let shown = conjecture(alloc, symbols, &parts.conjectures)?;
    let formula = problem_formula(alloc, symbols, given, shown)?;
    Ok(formula)
}

// The problem of the formulas that pass, over their symbols.
fn problem_over(
    alloc: Global,
    main: &Text,
    main_length: u64,
    setting: Setting,
    symbols: Symbols,
    parts: Parts,
) -> Result<Problem, BuildFault>
    requires names { IsTrue (list_all symbol_fits symbols) }
    requires arities { IsTrue (list_all is_narrow symbols) }
    requires short_premises { IsTrue (list_all is_short (map the_source parts.premises.items)) }
    requires short_conjectures { IsTrue (list_all is_short (map the_source parts.conjectures.items)) }
    requires premises { IsTrue (list_all (formula_fits (the_setting setting).logic symbols 0)
        (axioms_of (the_setting setting) symbols ++ map (closed symbols) (map the_source parts.premises.items))) }
    requires conjectures { IsTrue (list_all (formula_fits (the_setting setting).logic symbols 0)
        (map (closed symbols) (map the_source parts.conjectures.items))) }
    ensures inside { IfErr result (λ f. is_inside f ≡ true) }
    ensures setting { IfOk result (λ p. p.setting ≡ the_setting setting) }
    ensures problem { IfSome (the_answer result) (λ r. r
        ≡ limited (refusal.bad main.now main_length Cause.NoFormula) (the_setting setting) symbols
        (axioms_of (the_setting setting) symbols ++ map (closed symbols) (map the_source parts.premises.items))
        (map (closed symbols) (map the_source parts.conjectures.items))) }
{
    if symbols.len() > Symbols::MAX_LEN {
        return Err(BuildFault::TooManySymbols);
    }
    let with_axioms = has_axioms(alloc, setting.logic(), &symbols)?;
    let measured = problem_nodes(alloc, &symbols, with_axioms, &parts)?;
    let Some(nodes) = measured else {
        return Err(BuildFault::NestingTooDeep);
    };
    if nodes > MAX_NODES {
        return Err(BuildFault::FormulaTooLarge);
    }
    let made = formula_of(alloc, &symbols, with_axioms, &parts)?;
    let Some(formula) = made else {
        return Err(bad(alloc, main, main_length, Cause::NoFormula));
    };
    Ok(Problem::new(setting, formula, symbols))
}

/// The problem of the formulas that pass, of which at most one is a conjecture. `main_length` is
/// the length of the main file, at whose end it is told that there is no formula.
pub fn problem_of(
    alloc: Global,
    main: &Text,
    main_length: u64,
    setting: Setting,
    passed: Vec<Passed>,
) -> Result<Problem, BuildFault>
    requires read { AreRead (is_modal (the_setting setting).logic) (map the_passed passed.items) }
    ensures inside { IfErr result (λ f. is_inside f ≡ true) }
    ensures setting { IfOk result (λ p. p.setting ≡ the_setting setting) }
    ensures problem { IfSome (the_answer result) (λ r. r
        ≡ problem_of (refusal.bad main.now main_length Cause.NoFormula) (the_setting setting) (map the_passed passed.items)) }
{
    let symbols = match symbols_of(alloc, &passed) {
        Ok(symbols) => symbols,
        Err(AddFault::Full) => return Err(BuildFault::TooManySymbols),
        Err(AddFault::NoMemory) => return Err(BuildFault::NoMemory),
    };
    let parts = parts_of(alloc, passed)?;
    problem_over(alloc, main, main_length, setting, symbols, parts)
}

/// The problem that the file of this name holds, with the files that it includes. An included file
/// is fetched by its name behind the root and a `/`, where there is a root and the name does not
/// begin with `/`.
pub fn build<L: Library>(
    alloc: Global,
    lib: &mut L,
    name: &Text,
    root: &Text,
    setting: Setting,
) -> Result<Problem, BuildFault>
    // Of every map of files that agrees with what was read in this call; so of the files that the
    // library tells, which agree by `reads_on` (the law `of-told` of `cop_base`).
    ensures agreeing { (files : Files) → AgreesSince files (L.reads lib.old) (L.reads lib.new)
        → IfSome (the_answer result)
        (λ r. IsProblemOf files name.now root.now (the_setting setting) r) }
    ensures agreeing_alone { (files : Files) → AgreesSince files (L.reads lib.old) (L.reads lib.new)
        → IfSome (the_answer result)
        (λ r. (other : Result tree.Problem Refusal) → IsProblemOf files name.now root.now (the_setting setting) other
        → other ≡ r) }
    ensures agreeing_symbols { (files : Files) → AgreesSince files (L.reads lib.old) (L.reads lib.new)
        → IfOk result (λ p. HasItsSymbols p) }
    ensures agreeing_fetched { (n : Text) → result ≡ Err (BuildFault.Failed n)
        → (files : Files) → AgreesSince files (L.reads lib.old) (L.reads lib.new)
        → WalkFetches files name.now root.now (the_setting setting) n }
    ensures reads_on { ReadsOn (L.holds lib.old) (L.reads lib.old) (L.reads lib.new) }
    // Each file that is read is one that the walk fetches.
    ensures reads_only { (files : Files) → AgreesSince files (L.reads lib.old) (L.reads lib.new)
        → ReadsOnly (WalkFetches files name.now root.now (the_setting setting)) (L.reads lib.old) (L.reads lib.new) }

    // A file that is missing or could not be read is that of the last fetch.
    ensures last_missing { (n : Text) → result ≡ Err (BuildFault.Missing n) → EndsWith (L.reads lib.new) n seen.absent }
    ensures last_failed { (n : Text) → result ≡ Err (BuildFault.Failed n) → EndsWith (L.reads lib.new) n seen.failed }

    ensures setting { IfOk result (λ p. p.setting ≡ the_setting setting) }
    ensures same_files { L.holds lib.new ≡ L.holds lib.old }
    ensures more_faults { L.faults lib.old ≤ L.faults lib.new }
    ensures more_misses { L.misses lib.old ≤ L.misses lib.new }
    ensures missing { (n : Text) → result ≡ Err (BuildFault.Missing n) → Rose (L.misses lib.old) (L.misses lib.new) }
    ensures failed { (n : Text) → result ≡ Err (BuildFault.Failed n) → Rose (L.faults lib.old) (L.faults lib.new) }
{
    let walked = match walk_files(alloc, lib, setting.logic().is_modal(), name, root) {
        Ok(walked) => walked,
        Err(fault) => return Err(fault),
    };
    problem_of(alloc, name, walked.main_length, setting, walked.passed)
}
