//! Worked derivations, what they become, and the judgement of that.

ghost use Rattle.std.specs.Prelude.{◌≡◌, IfOk, IsTrue};
ghost use Rattle.calculus.specs.Calculus.{Derives};
ghost use Rattle.calculus.specs.DerivationText.{is_printable};
ghost use Rattle.calculus.specs.Translation.{translated_problem};
ghost use Rattle.calculus.specs.Versions.{stated};
ghost use Rattle.calculus.specs.declared.setting.Logic.TheVariants.{Intuitionistic};

use cop_base::NoMemory;
use derivation_check::{Verdict, accept, check};
use derivation_text::{TextDerivation, Version, print};
use godel_transfer::{transfer, translate};
use logic_rules::{Domains, Logic, Problem};
use std::alloc::Global;
use std::test::Fail;
use test_problems::proving;

// Each function owns little: what a function owns is dropped at each of its exits, and each drop is
// proved.

// The derivation of the problem that the text is.
fn derivation_from(alloc: Global, problem: &Problem, text: &[u8]) -> Result<TextDerivation, Fail>
    ensures printable { IfOk result (λ d. IsTrue (is_printable problem.now (stated d))) }
    ensures derives { IfOk result (λ d. Derives problem.now (stated d)) }
{
    let (_, derivation) = accept(alloc, problem, text)?;
    Ok(derivation)
}

// The problem of S4.
fn target_of(alloc: Global, problem: &Problem) -> Result<Box<Problem>, Fail>
    requires { problem.now.setting.logic ≡ Intuitionistic }
    ensures { IfOk result (λ p. p.value ≡ translated_problem problem.now) }
{
    let target = translate(alloc, problem)?;
    Ok(Box::new(alloc, target)?)
}

// The text of what the derivation becomes.
fn text_in(
    alloc: Global,
    problem: &Problem,
    target: &Problem,
    derivation: &TextDerivation,
) -> Result<Vec<u8>, Fail>
    requires intuitionistic { problem.now.setting.logic ≡ Intuitionistic }
    requires target { target.now ≡ translated_problem problem.now }
    requires printable { IsTrue (is_printable problem.now (stated derivation.now)) }
    requires derives { Derives problem.now (stated derivation.now) }
{
    let moved = transfer(alloc, problem, derivation)?;
    let text = print(alloc, target, &moved, Version::One)?;
    Ok(text)
}

// Whether the text is this one, and a derivation of the problem of S4.
fn is_derivation(
    alloc: Global,
    target: &Problem,
    text: &[u8],
    expected: &[u8],
) -> Result<bool, NoMemory> {
    let verdict = check(alloc, target, text)?;
    Ok(verdict == Verdict::Accepted && text == expected)
}

// Whether the derivation of the problem that the text is becomes the one that is expected.
fn becomes(alloc: Global, problem: &Problem, text: &[u8], expected: &[u8]) -> Result<bool, Fail>
    requires { problem.now.setting.logic ≡ Intuitionistic }
{
    let derivation = derivation_from(alloc, problem, text)?;
    let target = target_of(alloc, problem)?;
    let moved = text_in(alloc, problem, &target, &derivation)?;
    let good = is_derivation(alloc, &target, moved.as_slice(), expected)?;
    Ok(good)
}

// A formula, a derivation of it, and what that becomes. Excluded middle twice denied, and an atom
// that is stepped twice.
const ROWS: &[(&[u8], &[u8], &[u8])] = &[
    (
        b"~~(p | ~p)",
        b"leancop derivation 1\nlogic intuitionistic\nformula ~~(p | ~p)\nlimit 1\nuse 1 new $$c1\nuse 2 to [$$c1]\nuse 3\nuse 5 new $$c2\nuse 2 to [$$c1,$$c2]\nuse 7\nuse 8 new $$c3\nuse 6 to [$$c1,$$c2,$$c3]\naxiom 11 10\nend\n",
        b"leancop derivation 1\nlogic s4 cumulative\nformula #box:~#box:~(#box:p | #box:~#box:p)\nlimit 1\nname $$s1 any\nuse 1 new $$c1\nuse 2\nuse 3 to [$$c1]\nuse 4\nuse 5\nuse 7 new $$c7\nuse 8\nuse 3 to [$$c1,$$c7]\nuse 10\nuse 11\nuse 12 new $$c13\nuse 9 to [$$c1,$$c7,$$c13]\naxiom 15 14\nend\n",
    ),
    (
        b"p => p",
        b"leancop derivation 1\nlogic intuitionistic\nformula (p => p)\nlimit 1\nuse 1 new $$c1\nuse 3 new $$c2\nuse 4 new $$c3\nuse 2 to [$$c1,$$c2,$$c3]\naxiom 6 5\nend\n",
        b"leancop derivation 1\nlogic s4 cumulative\nformula #box:(#box:p => #box:p)\nlimit 1\nname $$s1 any\nuse 1 new $$c1\nuse 2\nuse 4 new $$c4\nuse 3 to [$$c1,$$c4]\naxiom 6 5\nend\n",
    ),
];

#[test]
fn transfers_derivations(rt: HostRuntime) -> Result<(), Fail> {
    let alloc = rt.alloc();
    for (formula, text, expected) in ROWS {
        let problem = proving(alloc, Logic::Intuitionistic, Domains::Cumulative, formula)?;
        assert!(rt; becomes(alloc, &problem, text, expected)?);
    }
    Ok(())
}
