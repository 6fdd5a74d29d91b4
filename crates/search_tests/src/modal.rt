//! Which modal formulas are proved in which logics, with which domains; what labels ask, how often
//! they are tried.

use crate::ends::{End, deepened, is_proved};
use cop_base::NoMemory;
use logic_rules::{Domains, Logic};
use std::alloc::Global;
use std::test::Fail;
use test_problems::proving;

const LOGICS: [Logic; 4] = [Logic::D, Logic::T, Logic::S4, Logic::S5];

const DOMAINS: [Domains; 3] = [Domains::Constant, Domains::Cumulative, Domains::Varying];

fn is_theorem(alloc: Global, logic: Logic, domains: Domains, formula: &[u8]) -> Result<bool, Fail> {
    let problem = proving(alloc, logic, domains, formula)?;
    let proved = is_proved(alloc, &problem, 1000)?;
    Ok(proved)
}

// With all domains, with none, with constant and cumulative ones, and with constant ones alone.
const ALL: [bool; 3] = [true, true, true];

const NONE: [bool; 3] = [false, false, false];

const KEPT: [bool; 3] = [true, true, false];

const ONE: [bool; 3] = [true, false, false];

// Whether a formula is proved in D, T, S4 and S5, where cumulative domains are constant.
const ROWS: &[(&[u8], [[bool; 3]; 4])] = &[
    // how long a string may be
    (b"#box:p => p", [NONE, ALL, ALL, ALL]),
    (b"#box:p => #box:p", [ALL, ALL, ALL, ALL]),
    (b"#box:p => #dia:p", [ALL, ALL, ALL, ALL]),
    (b"#box:p => #box:#box:p", [NONE, NONE, ALL, ALL]),
    (b"#box:#box:p => #box:p", [NONE, ALL, ALL, ALL]),
    (b"#dia:p => #box:#dia:p", [NONE, NONE, NONE, ALL]),
    (b"p => #box:#dia:p", [NONE, NONE, NONE, ALL]),
    // no string is inside itself
    (b"![X]:#dia:p(X) => ![X]:#dia:p(X)", [ALL, ALL, ALL, ALL]),
    (
        b"![X]:#dia:p(X) => #dia:![X]:p(X)",
        [NONE, NONE, NONE, NONE],
    ),
    // the goals of a branch differ
    (
        b"(#box:(q => p) & #box:(p => q)) => #box:p",
        [NONE, NONE, NONE, NONE],
    ),
    (
        b"(#box:(q => p) & #box:(#box:p => q) & #box:#box:p) => #box:p",
        [ALL, ALL, ALL, ALL],
    ),
    (
        b"(#box:(q => p) & #box:(#dia:p => q) & #box:#dia:p) => #box:p",
        [ALL, ALL, ALL, ALL],
    ),
    // the home of an eigenvariable: the same world, the root, another world, a world before
    (b"#box:![X]:p(X) => #box:![X]:p(X)", [ALL, ALL, ALL, ALL]),
    (
        b"#box:![X]:p(X) => ![X]:#box:p(X)",
        [KEPT, KEPT, KEPT, KEPT],
    ),
    (
        b"?[X]:#dia:p(X) => #dia:?[X]:p(X)",
        [KEPT, KEPT, KEPT, KEPT],
    ),
    (b"![X]:#box:p(X) => #box:![X]:p(X)", [ONE, ONE, ONE, KEPT]),
    (b"#dia:?[X]:p(X) => ?[X]:#dia:p(X)", [ONE, ONE, ONE, KEPT]),
    (
        b"#dia:![X]:#box:p(X) => #box:![X]:#box:p(X)",
        [NONE, NONE, NONE, KEPT],
    ),
    (
        b"#box:#box:![X]:p(X) => #box:![X]:#box:p(X)",
        [KEPT, KEPT, KEPT, KEPT],
    ),
    // it leads to other lengths
    (
        b"#box:![X]:#box:p(X) => ![X]:#box:p(X)",
        [NONE, ALL, ALL, ALL],
    ),
    (
        b"#box:![X]:#box:p(X) => #box:![X]:p(X)",
        [NONE, ALL, ALL, ALL],
    ),
    (
        b"#box:![X]:#box:![Y]:p(X,Y) => ![X]:![Y]:#box:p(X,Y)",
        [NONE, KEPT, KEPT, KEPT],
    ),
    (
        b"#box:![X]:#box:p(X) => ![X]:#box:#box:p(X)",
        [KEPT, KEPT, ALL, ALL],
    ),
    (
        b"#box:![X]:#box:p(X) => #box:#box:![X]:p(X)",
        [ONE, ONE, ALL, ALL],
    ),
    // a spare constant has one home and is not inside it, if there is no constant
    (b"![X]:p(X) => ?[X]:p(X)", [ALL, ALL, ALL, ALL]),
    (b"![X]:p(f(X)) => ?[X]:p(X)", [ALL, ALL, ALL, ALL]),
    (b"![X]:#box:p(X) => #dia:?[X]:p(X)", [KEPT, ALL, ALL, ALL]),
    (
        b"![X]:#box:p(X) => #box:?[X]:p(X)",
        [KEPT, KEPT, KEPT, KEPT],
    ),
    (
        b"![X]:#box:p(f(X)) => #box:?[X]:p(X)",
        [KEPT, KEPT, KEPT, KEPT],
    ),
    (b"?[X]:#box:?[Y]:(p(X) => p(Y))", [KEPT, KEPT, KEPT, KEPT]),
    (
        b"q(a) => (![X]:#box:p(X) => #box:?[X]:p(X))",
        [ALL, ALL, ALL, ALL],
    ),
    (b"#box:p(a) => #box:?[X]:p(X)", [ALL, ALL, ALL, ALL]),
];

#[test]
fn proves_in_each_logic(rt: HostRuntime) -> Result<(), Fail> {
    let alloc = rt.alloc();
    for (row, (formula, proved)) in ROWS.iter().enumerate() {
        for l in 0..4 {
            for d in 0..3 {
                let found = is_theorem(alloc, LOGICS[l], DOMAINS[d], formula)?;
                assert!(rt; found == proved[l][d], "row {row}, {l} {d}");
            }
        }
    }
    Ok(())
}

// The formula with forty boxes in the place of each `*`.
fn boxed(alloc: Global, formula: &[u8]) -> Result<Vec<u8>, NoMemory> {
    let mut text = Vec::new(alloc);
    for byte in formula {
        if *byte == b'*' {
            for _ in 0..40 {
                text.extend_from_slice(b"#box:")?;
            }
        } else {
            text.push(*byte)?;
        }
    }
    Ok(text)
}

// With forty strings there are more than 2^40 lists of lengths: what is tried is led by the order of
// labels, by homes and by the goals that differ.
const STEPS: &[(Logic, Domains, &[u8], u64, End, u64)] = &[
    (
        Logic::D,
        CONSTANT,
        b"* p => #box:* p",
        1000,
        End::NoTableau(1),
        3,
    ),
    (
        Logic::T,
        CONSTANT,
        b"* p => #box:* p",
        1000,
        End::NoTableau(1),
        3,
    ),
    (
        Logic::S4,
        CONSTANT,
        b"* p => #box:* p",
        1000,
        End::Closed(1),
        3,
    ),
    (Logic::S4, CONSTANT, b"* p => #box:* p", 2, End::Steps(0), 2),
    (Logic::T, CONSTANT, b"* p => * p", 1000, End::Closed(1), 3),
    (
        Logic::T,
        CONSTANT,
        b"* p => #box:p",
        1000,
        End::Closed(1),
        3,
    ),
    (
        Logic::S4,
        CONSTANT,
        b"(*(q => p) & *(p => q)) => #box:p",
        1000,
        End::Exhausted(10),
        65,
    ),
    (
        Logic::S4,
        CONSTANT,
        b"(*(q => p) & *(#dia:p => q) & * #dia:p) => #box:p",
        1000,
        End::Closed(3),
        11,
    ),
    (
        Logic::S4,
        CONSTANT,
        b"![X]:* p(X) => #box:![X]:p(X)",
        1000,
        End::Closed(1),
        3,
    ),
    (
        Logic::S4,
        CUMULATIVE,
        b"![X]:* p(X) => #box:![X]:p(X)",
        1000,
        End::NoTableau(1),
        3,
    ),
    (
        Logic::S4,
        VARYING,
        b"![X]:* p(X) => #box:![X]:p(X)",
        1000,
        End::NoTableau(1),
        3,
    ),
    (
        Logic::S4,
        CUMULATIVE,
        b"*![X]:* p(X) => #box:![X]:p(X)",
        1000,
        End::Closed(1),
        3,
    ),
    (
        Logic::S4,
        VARYING,
        b"*![X]:* p(X) => ![X]:#box:p(X)",
        1000,
        End::Closed(1),
        3,
    ),
    (
        Logic::S4,
        VARYING,
        b"*![X]:* p(X) => #box:![X]:#box:p(X)",
        1000,
        End::Closed(1),
        3,
    ),
    (
        Logic::T,
        CONSTANT,
        b"(* p & q) => (#box:* p & q)",
        1000,
        End::NoTableau(1),
        4,
    ),
];

const CONSTANT: Domains = Domains::Constant;

const CUMULATIVE: Domains = Domains::Cumulative;

const VARYING: Domains = Domains::Varying;

#[test]
fn needs_few_steps(rt: HostRuntime) -> Result<(), Fail> {
    let alloc = rt.alloc();
    for (logic, domains, formula, budget, end, used) in STEPS {
        let formula = boxed(alloc, formula)?;
        let problem = proving(alloc, *logic, *domains, formula.as_slice())?;
        let found = deepened(alloc, &problem, *budget)?;
        assert!(rt; found == (*end, *used), "{found:?}");
    }
    Ok(())
}
