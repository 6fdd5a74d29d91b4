//! Generated problems.

use calculus::setting::Logic;
use problem_gen::{Family, make};
use std::test::Fail;

#[test]
fn makes_families(rt: HostRuntime) -> Result<(), Fail> {
    let chain = make(rt.alloc(), Family::Chain, 2, Logic::Classical)?;
    assert_eq!(rt;
        chain.as_slice(),
        b"fof(s,axiom,p0).\nfof(a1,axiom,(p0 => p1)).\nfof(a2,axiom,(p1 => p2)).\nfof(c,conjecture,p2).\n".as_slice()
    );
    let shift = make(rt.alloc(), Family::Shift, 2, Logic::S5)?;
    assert_eq!(rt;
        shift.as_slice(),
        b"qmf(s,axiom,p(a)).\nqmf(n,axiom,![X]:(p(X) => p(f(X)))).\nqmf(c,conjecture,p(f(f(a)))).\n".as_slice()
    );
    let tower = make(rt.alloc(), Family::Tower, 3, Logic::S4)?;
    assert_eq!(rt;
        tower.as_slice(),
        b"qmf(c,conjecture,(#box:p => #box:#box:#box:p)).\n".as_slice()
    );
    Ok(())
}
