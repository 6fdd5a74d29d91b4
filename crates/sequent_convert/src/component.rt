//! The nodes of a part's components.

ghost use Rattle.std.specs.Prelude.{◌≡◌, ◌≤◌, ◌+◌, List, IfOk, suc};
ghost use Rattle.conversion_theory.specs.Branches.{item};
ghost use Rattle.calculus.specs.Instances.{down_by};
ghost use Rattle.calculus.specs.Positions.{size};
ghost use Rattle.formula_core.specs.FormulaView.{the_formula};
ghost use Rattle.formula_core.specs.GroundLists.{GroundList};
ghost use Rattle.sequent_convert.specs.ByNumber.NodeView.{the_node};
ghost use Rattle.sequent_convert.specs.ByNumber.SpotView.{the_spot};

use crate::node::Node;
use crate::spot::Spot;
use cop_base::NoMemory;
use tableau_core::Part;

/// The position of the component behind the first one.
pub fn second_position(position: u32, first: Part) -> u32
    requires { position + suc (size (the_formula first.formula.now)) ≤ 4294967295 }
    ensures { result ≡ position + suc (size (the_formula first.entry.formula.now)) }
{
    position + (first.size() + 1)
}

/// The only or first component.
pub fn first<'a>(spot: &Spot, a: Part<'a>) -> Result<Node<'a>, NoMemory>
    requires { spot.now.position + suc (size (the_formula a.formula.now)) ≤ 4294967295 }
    ensures { IfOk result (λ n. (ls : List GroundList) → the_node ls n
        ≡ item (down_by 1 (the_spot ls spot.now)) a.entry.sign (the_formula a.entry.formula.now)) }
{
    let spot = spot.down_by(1)?;
    Ok(Node {
        spot,
        part: a,
        past: false,
    })
}

/// The component b behind the component a.
pub fn second<'a>(spot: &Spot, a: Part, b: Part<'a>) -> Result<Node<'a>, NoMemory>
    requires { spot.now.position + suc (size (the_formula a.formula.now) + size (the_formula b.formula.now)) ≤ 4294967295 }
    ensures { IfOk result (λ n. (ls : List GroundList) → the_node ls n
        ≡ item (down_by (suc (size (the_formula a.entry.formula.now))) (the_spot ls spot.now)) b.entry.sign (the_formula b.entry.formula.now)) }
{
    let spot = spot.down_by(a.size() + 1)?;
    Ok(Node {
        spot,
        part: b,
        past: false,
    })
}
