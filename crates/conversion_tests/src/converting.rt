//! Tableaux by hand, and derivations of these that are accepted.

use crate::deep::deep_tableau;
use crate::example_tableaux::{
    Case, MarkIs, TermIs, ValueIs, from_to, given, instance_of, shown, tableau,
};
use cop_base::NoMemory;
use derivation_check::{Verdict, check};
use derivation_text::{Version, print};
use logic_rules::{Domains, Logic, Problem};
use sequent_convert::convert;
use std::alloc::Global;
use std::test::Fail;
use tableau_core::{Side, Tableau, is_closed};
use test_problems::proving;

// How many steps the derivation has to which the tableau leads within limit 1, where it is closed and
// the text of the derivation is accepted.
fn converted(alloc: Global, problem: &Problem, t: &Tableau) -> Result<Option<usize>, NoMemory> {
    if !is_closed(alloc, problem, t, 1)? {
        return Ok(None);
    }
    let derivation = convert(alloc, problem, t, 1)?;
    let text = print(alloc, problem, &derivation, Version::One)?;
    match check(alloc, problem, text.as_slice())? {
        Verdict::Accepted => Ok(Some(derivation.steps.items().len())),
        Verdict::Rejected { .. } => Ok(None),
    }
}

fn converts(alloc: Global, problem: &Problem, case: &Case, n: usize) -> Result<bool, NoMemory> {
    let t = tableau(alloc, case)?;
    let steps = converted(alloc, problem, &t)?;
    Ok(steps == Some(n))
}

fn serial_converts(alloc: Global, problem: &Problem) -> Result<bool, NoMemory> {
    let case = Case {
        marks: &[MarkIs::Spare(1)],
        terms: &[],
        values: &[ValueIs::Step(0)],
        literals: &[shown(None, from_to(0, 1)), given(None, from_to(0, 1))],
        start: instance_of(Side::Right, from_to(0, 1), from_to(0, 1)),
        goals: &[instance_of(Side::Left, from_to(0, 1), from_to(1, 2))],
    };
    converts(alloc, problem, &case, 4)
}

// The characters that the positions 0, 4 and 3 introduce, the latter two in the world of the first
// and in that of the second.
fn twice_denied_converts(alloc: Global, problem: &Problem) -> Result<bool, NoMemory> {
    let case = Case {
        marks: &[
            MarkIs::New(0, None),
            MarkIs::New(4, Some(ValueIs::Stay)),
            MarkIs::New(3, Some(ValueIs::Step(1))),
        ],
        terms: &[],
        values: &[ValueIs::Step(1), ValueIs::Stay, ValueIs::Step(2)],
        literals: &[shown(None, from_to(0, 3)), given(None, from_to(0, 3))],
        start: instance_of(Side::Left, from_to(0, 1), from_to(0, 1)),
        goals: &[instance_of(Side::Right, from_to(1, 3), from_to(1, 2))],
    };
    converts(alloc, problem, &case, 7)
}

// Names inside names: a character in the label of a spare constant, which names an eigenvariable.
fn boxed_drinker_converts(alloc: Global, problem: &Problem) -> Result<bool, NoMemory> {
    let case = Case {
        marks: &[MarkIs::New(0, None)],
        terms: &[TermIs::Own(0), TermIs::Eigen(2, Some(ValueIs::Term(0)))],
        values: &[ValueIs::Term(0), ValueIs::Term(1)],
        literals: &[shown(Some(1), from_to(0, 1)), given(Some(1), from_to(0, 1))],
        start: instance_of(Side::Right, from_to(0, 1), from_to(0, 1)),
        goals: &[instance_of(Side::Left, from_to(1, 2), from_to(1, 2))],
    };
    converts(alloc, problem, &case, 8)
}

// The box on the left is used at two labels. At the first it takes the eigenvariable whose step
// stands on the other branch alone.
fn both_worlds_convert(alloc: Global, problem: &Problem) -> Result<bool, NoMemory> {
    let case = Case {
        marks: &[MarkIs::New(6, None), MarkIs::New(9, None)],
        terms: &[
            TermIs::Eigen(7, None),
            TermIs::Eigen(10, None),
            TermIs::Common(0),
        ],
        values: &[
            ValueIs::Step(0),
            ValueIs::Term(0),
            ValueIs::Term(1),
            ValueIs::Step(1),
            ValueIs::Term(1),
            ValueIs::Term(2),
        ],
        literals: &[
            shown(Some(0), from_to(0, 1)),
            shown(Some(1), from_to(1, 2)),
            given(Some(0), from_to(0, 1)),
            given(Some(1), from_to(1, 2)),
        ],
        start: instance_of(Side::Right, from_to(0, 0), from_to(0, 2)),
        goals: &[
            instance_of(Side::Left, from_to(0, 3), from_to(2, 3)),
            instance_of(Side::Left, from_to(3, 6), from_to(3, 4)),
        ],
    };
    converts(alloc, problem, &case, 14)
}

#[test]
fn converts_a_spare_world(rt: HostRuntime) -> Result<(), Fail> {
    let alloc = rt.alloc();
    let formula = b"#box:p => #dia:p";
    let problem = proving(alloc, Logic::D, Domains::Constant, formula)?;
    assert!(rt; serial_converts(alloc, &problem)?);
    Ok(())
}

#[test]
fn converts_worlds_above_worlds(rt: HostRuntime) -> Result<(), Fail> {
    let alloc = rt.alloc();
    let formula = b"~~(p | ~p)";
    let problem = proving(alloc, Logic::Intuitionistic, Domains::Constant, formula)?;
    assert!(rt; twice_denied_converts(alloc, &problem)?);
    Ok(())
}

#[test]
fn converts_names_inside_names(rt: HostRuntime) -> Result<(), Fail> {
    let alloc = rt.alloc();
    let formula = b"#box:?[X]:![Y]:(p(X) => p(Y))";
    let problem = proving(alloc, Logic::D, Domains::Varying, formula)?;
    assert!(rt; boxed_drinker_converts(alloc, &problem)?);
    Ok(())
}

#[test]
fn converts_a_box_that_is_used_twice(rt: HostRuntime) -> Result<(), Fail> {
    let alloc = rt.alloc();
    let formula = b"#box:![X]:![Y]:p(X) => (#box:![X]:p(X) & #box:![X]:p(X))";
    let problem = proving(alloc, Logic::D, Domains::Constant, formula)?;
    assert!(rt; both_worlds_convert(alloc, &problem)?);
    Ok(())
}

#[test]
fn converts_terms_of_many_levels(rt: HostRuntime) -> Result<(), Fail> {
    let alloc = rt.alloc();
    let formula = b"![X]:p(f(X)) => ?[Y]:p(Y)";
    let problem = proving(alloc, Logic::Classical, Domains::Constant, formula)?;
    let t = deep_tableau(alloc, 200_000)?;
    assert!(rt; converted(alloc, &problem, &t)? == Some(4));
    Ok(())
}
