//! The search that does not return to solved goals.

use crate::ends::{End, cut, deepened};
use cop_base::PathLimit;
use logic_rules::{Domains, Logic};
use std::test::Fail;
use test_problems::proving;

// The complete search returns to p(X) and takes b. The other one keeps a, where q(a) needs one goal
// more, so it fails at limit 1.
#[test]
fn keeps_the_first_solution(rt: HostRuntime) -> Result<(), Fail> {
    let alloc = rt.alloc();
    let formula = b"(p(a) & p(b) & q(b) & (r => q(a)) & r) => ?[X]:(p(X) & q(X))";
    let problem = proving(alloc, Logic::Classical, Domains::Constant, formula)?;
    assert!(rt; deepened(alloc, &problem, 1000)?.0 == End::Closed(1));
    let (one, two) = (PathLimit { number: 1 }, PathLimit { number: 2 });
    assert!(rt; cut(alloc, &problem, two, 1000)?.0 == End::Closed(2));
    assert!(rt; cut(alloc, &problem, one, 1000)?.0 == End::Open);
    assert!(rt; cut(alloc, &problem, two, 3)? == (End::Stopped, 3));
    Ok(())
}

// Nothing extends the start, so no limit is tried but the first.
#[test]
fn ends_where_no_limit_helps(rt: HostRuntime) -> Result<(), Fail> {
    let alloc = rt.alloc();
    let formula = b"?[X]:p(X) => ![X]:p(X)";
    let problem = proving(alloc, Logic::Classical, Domains::Constant, formula)?;
    let greatest = PathLimit { number: 200 };
    assert!(rt; cut(alloc, &problem, greatest, 1000)? == (End::Open, 1));
    Ok(())
}
