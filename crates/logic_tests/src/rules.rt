//! The tables of the rules, and small problems.

use formula_core::{Formula, Sign};
use logic_rules::{
    Domains, Kind, Logic, Mark, ModalPart, Problem, Setting, Shape, home_allows, kind_of, steps_to,
};
use std::test::Fail;
use test_problems::proving;

// Whether the formula has this shape, with the first modal part in classical and modal logics and
// the second in intuitionistic logic.
fn has_kind(
    f: &Formula,
    sign: Sign,
    shape: Shape,
    modal: ModalPart,
    intuitionistic: ModalPart,
) -> bool {
    for logic in [Logic::Classical, Logic::D, Logic::T, Logic::S4, Logic::S5] {
        if kind_of(logic, sign, f) != (Kind { modal, shape }) {
            return false;
        }
    }
    let modal = intuitionistic;
    kind_of(Logic::Intuitionistic, sign, f) == Kind { modal, shape }
}

// The shape of each formula under each sign, and its modal parts.
const KINDS: &[(&[u8], Sign, Shape, ModalPart, ModalPart)] = &[
    (b"p", Sign::T, Shape::Literal, PLAIN, NU),
    (b"p", Sign::F, Shape::Literal, PLAIN, PI),
    (b"~p", Sign::T, Shape::Alpha, PLAIN, NU),
    (b"~p", Sign::F, Shape::Alpha, PLAIN, PI),
    (b"p & p", Sign::T, Shape::Alpha, PLAIN, PLAIN),
    (b"p & p", Sign::F, Shape::Beta, PLAIN, PLAIN),
    (b"p | p", Sign::T, Shape::Beta, PLAIN, PLAIN),
    (b"p | p", Sign::F, Shape::Alpha, PLAIN, PLAIN),
    (b"p => p", Sign::T, Shape::Beta, PLAIN, NU),
    (b"p => p", Sign::F, Shape::Alpha, PLAIN, PI),
    (b"![X]:p", Sign::T, Shape::Gamma, PLAIN, NU),
    (b"![X]:p", Sign::F, Shape::Delta, PLAIN, PI),
    (b"?[X]:p", Sign::T, Shape::Delta, PLAIN, PLAIN),
    (b"?[X]:p", Sign::F, Shape::Gamma, PLAIN, PLAIN),
    (b"#box:p", Sign::T, Shape::Alpha, NU, NU),
    (b"#box:p", Sign::F, Shape::Alpha, PI, PI),
    (b"#dia:p", Sign::T, Shape::Alpha, PI, PI),
    (b"#dia:p", Sign::F, Shape::Alpha, NU, NU),
];

const PLAIN: ModalPart = ModalPart::Plain;

const NU: ModalPart = ModalPart::Nu;

const PI: ModalPart = ModalPart::Pi;

#[test]
fn tells_kinds(rt: HostRuntime) -> Result<(), Fail> {
    for (formula, sign, shape, modal, intuitionistic) in KINDS {
        let problem = proving(rt.alloc(), Logic::T, Domains::Constant, formula)?;
        assert!(rt; has_kind(problem.formula(), *sign, *shape, *modal, *intuitionistic));
    }
    Ok(())
}

// Whether a step leads from the first label to the second: in classical logic, D, T, S4 as well as
// intuitionistic logic, and S5.
const STEPS: [(&[Mark], &[Mark], [bool; 5]); 13] = [
    (&[], &[], [true, false, true, true, true]),
    (&[], &[A], [false, true, true, true, true]),
    (&[], &[A, B], [false, false, false, true, false]),
    (&[A], &[A], [true, false, true, true, true]),
    (&[A], &[A, B], [false, true, true, true, false]),
    (&[A], &[A, B, C], [false, false, false, true, false]),
    (&[A], &[B], [false, false, false, false, true]),
    (&[A], &[], [false, false, false, false, true]),
    (&[A], &[B, A], [false, false, false, false, false]),
    (&[A, B], &[A, B], [true, false, true, true, false]),
    (&[A, B], &[A, B, A], [false, true, true, true, false]),
    (&[A, B], &[A, C], [false, false, false, false, false]),
    (&[A, B], &[A, C, B], [false, false, false, false, false]),
];

const A: Mark = Mark::New(1);

const B: Mark = Mark::Spare(1);

const C: Mark = Mark::New(2);

fn are_steps(from: &[Mark], to: &[Mark], answers: [bool; 5]) -> bool {
    let [classical, d, t, s4, s5] = answers;
    steps_to(Logic::Classical, from, to) == classical
        && steps_to(Logic::D, from, to) == d
        && steps_to(Logic::T, from, to) == t
        && steps_to(Logic::S4, from, to) == s4
        && steps_to(Logic::Intuitionistic, from, to) == s4
        && steps_to(Logic::S5, from, to) == s5
}

#[test]
fn follows_labels(rt: HostRuntime) -> Result<(), Fail> {
    for (from, to, answers) in STEPS {
        assert!(rt; are_steps(from, to, answers));
    }
    Ok(())
}

// Whether a name of the first label may stand at the second: with cumulative domains, and with
// varying ones.
const HOMES: [(&[u8], &[u8], bool, bool); 9] = [
    (b"", b"", true, true),
    (b"", b"a", true, false),
    (b"a", b"a", true, true),
    (b"a", b"ab", true, false),
    (b"a", b"", false, false),
    (b"a", b"ba", false, false),
    (b"ab", b"abcd", true, false),
    (b"ab", b"ac", false, false),
    (b"ab", b"acb", false, false),
];

fn allows(home: &[u8], at: &[u8], cumulative: bool, varying: bool) -> bool {
    home_allows(Domains::Constant, home, at)
        && home_allows(Domains::Cumulative, home, at) == cumulative
        && home_allows(Domains::Varying, home, at) == varying
}

#[test]
fn allows_names(rt: HostRuntime) -> Result<(), Fail> {
    for (home, at, cumulative, varying) in HOMES {
        assert!(rt; allows(home, at, cumulative, varying));
    }
    Ok(())
}

fn is_kept(problem: &Problem) -> bool {
    problem.setting().logic() == Logic::S5
        && problem.setting().domains() == Domains::Varying
        && matches!(problem.formula(), Formula::All(_))
        && problem.symbols().len() == 2
}

// Whether there is a constant, and whether there are common spares.
fn spares(problem: &Problem) -> (bool, bool) {
    (problem.has_constant(), problem.common_spares())
}

const SPARES: &[(Domains, &[u8], (bool, bool))] = &[
    (VARYING, b"![X]:p(c)", (true, true)),
    (VARYING, b"![X]:p(f(X))", (false, false)),
    (VARYING, b"![X]:(p(X) & q)", (false, false)),
    (CUMULATIVE, b"![X]:p(f(X))", (false, true)),
    (CONSTANT, b"![X]:(p(X) & q)", (false, true)),
];

#[test]
fn keeps_problems(rt: HostRuntime) -> Result<(), Fail> {
    let alloc = rt.alloc();
    let problem = proving(alloc, Logic::S5, VARYING, b"![X]:p(c)")?;
    assert!(rt; is_kept(&problem));
    for (domains, formula, answers) in SPARES {
        let problem = proving(alloc, Logic::S4, *domains, formula)?;
        assert!(rt; spares(&problem) == *answers);
    }
    Ok(())
}

// The domains that a logic keeps in the place of constant, cumulative and varying ones.
const KEPT: [(Logic, [Domains; 3]); 6] = [
    (Logic::Classical, [CONSTANT, CONSTANT, CONSTANT]),
    (Logic::Intuitionistic, [CUMULATIVE, CUMULATIVE, CUMULATIVE]),
    (Logic::D, [CONSTANT, CUMULATIVE, VARYING]),
    (Logic::T, [CONSTANT, CUMULATIVE, VARYING]),
    (Logic::S4, [CONSTANT, CUMULATIVE, VARYING]),
    (Logic::S5, [CONSTANT, CONSTANT, VARYING]),
];

const CONSTANT: Domains = Domains::Constant;

const CUMULATIVE: Domains = Domains::Cumulative;

const VARYING: Domains = Domains::Varying;

fn settles(logic: Logic, given: Domains, kept: Domains) -> bool {
    let setting = Setting::new(logic, given);
    setting.logic() == logic && setting.domains() == kept
}

#[test]
fn settles_domains(rt: HostRuntime) -> Result<(), Fail> {
    for (logic, [constant, cumulative, varying]) in KEPT {
        assert!(rt; settles(logic, CONSTANT, constant));
        assert!(rt; settles(logic, CUMULATIVE, cumulative));
        assert!(rt; settles(logic, VARYING, varying));
    }
    Ok(())
}
