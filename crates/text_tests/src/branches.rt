//! The labels, the numbers and the outline of a branch.

use derivation_branch::{NumberSet, Outline, add_eigens};
use formula_text::read_term;
use label_table::{Labels, is_home_at, reaches};
use logic_rules::{Domains, Logic, Mark};
use std::test::Fail;
use test_problems::proving;

#[test]
fn finds_labels(rt: HostRuntime) -> Result<(), Fail> {
    let alloc = rt.alloc();
    let mut labels = Labels::new(alloc);
    let one = labels.extend(0, Mark::New(1))?;
    let two = labels.extend(one, Mark::Spare(1))?;
    let other = labels.extend(one, Mark::New(2))?;
    let again = labels.extend(one, Mark::Spare(1))?;
    assert!(rt; labels.are_equal(two, again) && !labels.are_equal(two, other));
    assert!(rt; reaches(&labels, Logic::D, one, two) && !reaches(&labels, Logic::D, 0, two));
    assert!(rt; is_home_at(&labels, Domains::Cumulative, one, other));
    assert!(rt; !is_home_at(&labels, Domains::Cumulative, two, other));
    Ok(())
}

#[test]
fn keeps_numbers(rt: HostRuntime) -> Result<(), Fail> {
    let alloc = rt.alloc();
    let problem = proving(alloc, Logic::Classical, Domains::Constant, b"p")?;
    let mut set = NumberSet::new(alloc);
    set.add(3)?;
    if let Ok((row, _)) = read_term(alloc, problem.symbols(), b"$$e5", 0) {
        add_eigens(&mut set, &row)?;
    }
    set.add(4)?;
    assert!(rt; set.holds(4) && set.holds(5));
    set.cut(2);
    assert!(rt; set.holds(5) && !set.holds(4));
    set.cut(1);
    assert!(rt; set.holds(3) && !set.holds(5));
    Ok(())
}

// A quantifier that binds inside of one that does not.
#[test]
fn tells_what_binds(rt: HostRuntime) -> Result<(), Fail> {
    let alloc = rt.alloc();
    let problem = proving(
        alloc,
        Logic::Classical,
        Domains::Constant,
        b"![Y]:?[X]:p(X)",
    )?;
    let outline = Outline::new(alloc, problem.formula())?;
    assert!(rt; outline.binds(1) && !outline.binds(2));
    Ok(())
}
