//! A term that is as deep as its text is long.

use crate::terms::nested_text;
use cop_base::NoMemory;
use derivation_check::{Verdict, check};
use derivation_text::parse;
use logic_rules::{Domains, Logic};
use std::alloc::Global;
use std::test::Fail;
use test_problems::proving;

// The lines before the first term.
const HEAD: &[u8] =
    b"leancop derivation 1\nlogic classical\nformula (![X1]:p(X1) => ?[X1]:p(f(X1)))\nlimit 1\nname $$s1 any\nuse 1\nuse 2 term ";

// A derivation whose atoms have a term of so many levels and one more above its leaf.
fn deep_text(alloc: Global, levels: usize) -> Result<Vec<u8>, NoMemory> {
    let term = nested_text(alloc, b"$$s1", levels)?;
    let mut text = Vec::new(alloc);
    text.extend_from_slice(HEAD)?;
    text.extend_from_slice(b"f(")?;
    text.extend_from_slice(term.as_slice())?;
    text.extend_from_slice(b")\nuse 3 term ")?;
    text.extend_from_slice(term.as_slice())?;
    text.extend_from_slice(b"\naxiom 4 5\nend\n")?;
    Ok(text)
}

#[test]
fn accepts_deep_terms(rt: HostRuntime) -> Result<(), Fail> {
    let alloc = rt.alloc();
    let formula = b"![X]:p(X) => ?[X]:p(f(X))";
    let problem = proving(alloc, Logic::Classical, Domains::Constant, formula)?;
    let text = deep_text(alloc, 30_000)?;
    assert!(rt; check(alloc, &problem, text.as_slice())? == Verdict::Accepted);
    assert!(rt; parse(alloc, &problem, text.as_slice()).is_ok());
    Ok(())
}
