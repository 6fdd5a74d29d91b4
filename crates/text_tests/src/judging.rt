//! Texts that are worked out by hand, and changes of them, judged by the checker and by the rules one
//! step at a time.

use crate::stepping::judged_by_steps;
use cop_base::NoMemory;
use derivation_check::{CheckFault, Verdict, check};
use derivation_text::TextCause;
use logic_rules::{Domains, Logic, Problem};
use sequent_calc::StepFault;
use std::alloc::Global;
use std::test::Fail;
use test_problems::proving;

// What the checker and the rules judge of the text that these two parts make.
fn judged(
    alloc: Global,
    problem: &Problem,
    head: &[u8],
    steps: &[u8],
) -> Result<(Verdict, Verdict), NoMemory> {
    let mut text = Vec::new(alloc);
    text.extend_from_slice(head)?;
    text.extend_from_slice(steps)?;
    let checked = check(alloc, problem, text.as_slice())?;
    let stepped = judged_by_steps(alloc, problem, text.as_slice())?;
    Ok((checked, stepped))
}

// The line and the fault where a text is rejected.
type Refusal = Option<(u64, CheckFault)>;

fn verdict(refusal: Refusal) -> Verdict {
    match refusal {
        Some((line, fault)) => Verdict::Rejected { line, fault },
        None => Verdict::Accepted,
    }
}

const DRINKER: &[u8] = b"?[X]:![Y]:(p(X) => p(Y))";

// Seven lines.
const DRINKER_HEAD: &[u8] =
    b"leancop derivation 1\nlogic classical\nformula ?[X1]:![X2]:(p(X1) => p(X2))\nlimit 1\nname $$e1 []\nname $$e2 []\nname $$s1 any\n";

const DRINKER_STEPS: &[(&[u8], Refusal)] = &[
    (
        b"use 1 term $$s1\nuse 2 name $$e1\nuse 3\nuse 1 term $$e1\nuse 6 name $$e2\nuse 7\naxiom 8 5\nend\n",
        None,
    ),
    // the eigenvariable of the fifth step is that of the second
    (
        b"use 1 term $$s1\nuse 2 name $$e1\nuse 3\nuse 1 term $$e1\nuse 6 name $$e1\nuse 7\naxiom 8 5\nend\n",
        Some((12, CheckFault::Step(StepFault::NotNew))),
    ),
    // two entries that are given
    (
        b"use 1 term $$s1\nuse 2 name $$e1\nuse 3\nuse 1 term $$e1\nuse 6 name $$e2\nuse 7\naxiom 8 9\nend\n",
        Some((14, CheckFault::Step(StepFault::NoConnection))),
    ),
    // no name line
    (
        b"use 1 term $$s2\nuse 2 name $$e1\nuse 3\nuse 1 term $$e1\nuse 6 name $$e2\nuse 7\naxiom 8 5\nend\n",
        Some((8, CheckFault::Step(StepFault::UnknownName))),
    ),
    // the last step is left out, and stands twice
    (
        b"use 1 term $$s1\nuse 2 name $$e1\nuse 3\nuse 1 term $$e1\nuse 6 name $$e2\nuse 7\nend\n",
        Some((14, CheckFault::StillOpen)),
    ),
    (
        b"use 1 term $$s1\nuse 2 name $$e1\nuse 3\nuse 1 term $$e1\nuse 6 name $$e2\nuse 7\naxiom 8 5\naxiom 8 5\nend\n",
        Some((15, CheckFault::AllClosed)),
    ),
    // of two wrong steps the first is told
    (
        b"use 1 term $$s1\nuse 2 name $$e1\nuse 9\nuse 1 term $$e1\nuse 6 name $$e1\nuse 7\naxiom 8 9\nend\n",
        Some((10, CheckFault::Step(StepFault::NoEntry))),
    ),
    // a fault of the text before those of the steps
    (
        b"use 1 term $$s1\nuse 2 name $$e1\nuse 9\nuse 1 term $$e1\nuse 6 name $$e1\nuse 7\naxiom 8\nend\n",
        Some((14, CheckFault::Text(TextCause::Line))),
    ),
    // `end` is cut, and stands twice
    (
        b"use 1 term $$s1\nuse 2 name $$e1\nuse 3\nuse 1 term $$e1\nuse 6 name $$e2\nuse 7\naxiom 8 5\n",
        Some((15, CheckFault::Text(TextCause::Line))),
    ),
    (
        b"use 1 term $$s1\nuse 2 name $$e1\nuse 3\nuse 1 term $$e1\nuse 6 name $$e2\nuse 7\naxiom 8 5\nend\nend\n",
        Some((16, CheckFault::Text(TextCause::TextAfterEnd))),
    ),
];

#[test]
fn judges_first_order_steps(rt: HostRuntime) -> Result<(), Fail> {
    let alloc = rt.alloc();
    let problem = proving(alloc, Logic::Classical, Domains::Constant, DRINKER)?;
    for (steps, refusal) in DRINKER_STEPS {
        let (checked, stepped) = judged(alloc, &problem, DRINKER_HEAD, steps)?;
        assert!(rt; checked == verdict(*refusal));
        assert!(rt; stepped == verdict(*refusal));
    }
    Ok(())
}

const PROBLEMS: &[(Logic, &[u8], Refusal)] = &[
    (Logic::Classical, DRINKER, None),
    (
        Logic::Classical,
        b"p => p",
        Some((3, CheckFault::Text(TextCause::Formula))),
    ),
    (
        Logic::Intuitionistic,
        DRINKER,
        Some((2, CheckFault::Text(TextCause::Setting))),
    ),
];

#[test]
fn judges_the_problem(rt: HostRuntime) -> Result<(), Fail> {
    let alloc = rt.alloc();
    let steps =
        b"use 1 term $$s1\nuse 2 name $$e1\nuse 3\nuse 1 term $$e1\nuse 6 name $$e2\nuse 7\naxiom 8 5\nend\n";
    for (logic, formula, refusal) in PROBLEMS {
        let problem = proving(alloc, *logic, Domains::Constant, formula)?;
        let (checked, stepped) = judged(alloc, &problem, DRINKER_HEAD, steps)?;
        assert!(rt; checked == verdict(*refusal));
        assert!(rt; stepped == verdict(*refusal));
    }
    Ok(())
}

// A problem, and the first four lines of its derivations.
type Example = (Logic, Domains, &'static [u8], &'static [u8]);

const SERIAL: Example = (
    Logic::D,
    Domains::Constant,
    b"#box:p => #dia:p",
    b"leancop derivation 1\nlogic d constant\nformula (#box:p => #dia:p)\nlimit 1\n",
);

const TWICE_DENIED: Example = (
    Logic::Intuitionistic,
    Domains::Cumulative,
    b"~~(p | ~p)",
    b"leancop derivation 1\nlogic intuitionistic\nformula ~~(p | ~p)\nlimit 1\n",
);

const BARCAN: &[u8] = b"![X]:#box:p(X) => #box:![X]:p(X)";

const CONSTANT_BARCAN: Example = (
    Logic::T,
    Domains::Constant,
    BARCAN,
    b"leancop derivation 1\nlogic t constant\nformula (![X1]:#box:p(X1) => #box:![X1]:p(X1))\nlimit 1\n",
);

const CUMULATIVE_BARCAN: Example = (
    Logic::T,
    Domains::Cumulative,
    BARCAN,
    b"leancop derivation 1\nlogic t cumulative\nformula (![X1]:#box:p(X1) => #box:![X1]:p(X1))\nlimit 1\n",
);

const MODAL_STEPS: &[(Example, &[u8], Refusal)] = &[
    (
        SERIAL,
        b"use 1\nuse 2 to [$$d1]\nuse 3 to [$$d1]\naxiom 4 5\nend\n",
        None,
    ),
    // no label is reached from itself in D
    (
        SERIAL,
        b"use 1\nuse 2 to []\nuse 3 to []\naxiom 4 5\nend\n",
        Some((6, CheckFault::Step(StepFault::NotReachable))),
    ),
    // no box is used without a label
    (
        SERIAL,
        b"use 1\nuse 2\nuse 3 to [$$d1]\naxiom 4 5\nend\n",
        Some((6, CheckFault::Step(StepFault::WrongArguments))),
    ),
    (
        TWICE_DENIED,
        b"use 1 new $$c1\nuse 2 to [$$c1]\nuse 3\nuse 5 new $$c2\nuse 2 to [$$c1,$$c2]\nuse 7\nuse 8 new $$c3\nuse 6 to [$$c1,$$c2,$$c3]\naxiom 11 10\nend\n",
        None,
    ),
    // the eigenvariable lives where the second step leads
    (
        CONSTANT_BARCAN,
        b"name $$e1 [$$c1]\nuse 1\nuse 3 new $$c1\nuse 4 name $$e1\nuse 2 term $$e1\nuse 6 to [$$c1]\naxiom 7 5\nend\n",
        None,
    ),
    (
        CUMULATIVE_BARCAN,
        b"name $$e1 [$$c1]\nuse 1\nuse 3 new $$c1\nuse 4 name $$e1\nuse 2 term $$e1\nuse 6 to [$$c1]\naxiom 7 5\nend\n",
        Some((9, CheckFault::Step(StepFault::NotAllowed))),
    ),
    (
        CONSTANT_BARCAN,
        b"name $$e1 []\nuse 1\nuse 3 new $$c1\nuse 4 name $$e1\nuse 2 term $$e1\nuse 6 to [$$c1]\naxiom 7 5\nend\n",
        Some((8, CheckFault::Step(StepFault::WrongHome))),
    ),
];

#[test]
fn judges_steps_of_other_logics(rt: HostRuntime) -> Result<(), Fail> {
    let alloc = rt.alloc();
    for ((logic, domains, formula, head), steps, refusal) in MODAL_STEPS {
        let problem = proving(alloc, *logic, *domains, formula)?;
        let (checked, stepped) = judged(alloc, &problem, head, steps)?;
        assert!(rt; checked == verdict(*refusal));
        assert!(rt; stepped == verdict(*refusal));
    }
    Ok(())
}
