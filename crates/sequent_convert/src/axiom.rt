//! Axioms: a T node and an F node of one atom at one label.

ghost use Rattle.std.specs.Prelude.{◌≡◌, ◌↔◌, ◌<◌, ℕ, IsTrue, IfOk, MatchOption, length, map, ◌∷◌, suc, Some, OnOk, true};
ghost use Rattle.calculus.specs.Lists.{terms_tree};
ghost use Rattle.sequent_convert.specs.ByNumber.NodeView.{the_node};
ghost use Rattle.sequent_convert.specs.ByNumber.Pairs.{ArePair, AreSameLiterals, MakeAxiom, MakesAxiomAt, SameAtoms};
ghost use Rattle.sequent_convert.specs.ByNumber.SpotView.{the_spot};
ghost use Rattle.calculus.specs.Text.{is_number};

use crate::alike::{are_alike, are_same_labels};
use crate::node::Node;
use crate::spot::Spot;
use cop_base::{NoMemory, SymbolId};
use formula_core::{GroundTable, Sign, Terms};

/// The numbers of the two nodes of an axiom, counted from 1.
#[derive(Clone, Copy)]
pub struct Pair {
    pub given: u32,
    pub shown: u32,
}

/// The number of the entry at a place.
pub fn entry_number(place: usize) -> Result<u32, NoMemory>
    ensures value { IfOk result (λ n. n ≡ suc place) }
    ensures fits { OnOk result (is_number (suc place) ≡ true) }
{
    match u32::try_from(place) {
        Ok(n) => match n.checked_add(1) {
            Some(number) => Ok(number),
            None => Err(NoMemory),
        },
        Err(_) => Err(NoMemory),
    }
}

// Whether both are the same atom at the same label.
fn are_same_literals(
    table: &GroundTable,
    a: &Spot,
    p: SymbolId,
    ts: &Terms,
    b: &Spot,
    q: SymbolId,
    us: &Terms,
) -> bool
    ensures { IsTrue result ↔ AreSameLiterals (the_spot table.now a.now) p.0 (terms_tree ts.now) (the_spot table.now b.now) q.0 (terms_tree us.now) }
{
    p == q
        && are_alike(
            table,
            a.env.as_ref().as_slice(),
            ts,
            b.env.as_ref().as_slice(),
            us,
        )
        && are_same_labels(
            table,
            a.label.as_ref().as_slice(),
            b.label.as_ref().as_slice(),
        )
}

// Whether both are atoms, and the same one at the same label.
#[tactic(auto, using(crate::proofs::ByNumber::PairLaws::atoms))]
fn are_same_atoms(table: &GroundTable, given: &Node, shown: &Node) -> bool
    ensures { IsTrue result ↔ SameAtoms (the_node table.now given.now) (the_node table.now shown.now) }
{
    let Some((p, ts)) = given.part.formula.as_atom() else {
        return false;
    };
    let Some((q, us)) = shown.part.formula.as_atom() else {
        return false;
    };
    are_same_literals(table, &given.spot, p, ts, &shown.spot, q, us)
}

// Whether the two nodes make an axiom.
#[tactic(auto, using(crate::proofs::ByNumber::PairLaws::atoms))]
fn are_pair(table: &GroundTable, given: &Node, shown: &Node) -> bool
    ensures { IsTrue result ↔ MakeAxiom (the_node table.now given.now) (the_node table.now shown.now) }
{
    match given.part.sign {
        Sign::F => false,
        Sign::T => match shown.part.sign {
            Sign::T => false,
            Sign::F => are_same_atoms(table, given, shown),
        },
    }
}

/// The pair of the nodes at two places, if they make an axiom.
#[tactic(auto, using(crate::proofs::ByNumber::PairLaws::places))]
pub fn pair_at(
    table: &GroundTable,
    nodes: &[Node],
    given: usize,
    shown: usize,
) -> Result<Option<Pair>, NoMemory>
    requires given { given < length nodes.now }
    requires shown { shown < length nodes.now }
    ensures { IfOk result (λ o. MatchOption o (¬ (MakesAxiomAt (map (the_node table.now) nodes.now) given shown))
        (λ p. ArePair (map (the_node table.now) nodes.now) p)) }
{
    if are_pair(table, &nodes[given], &nodes[shown]) {
        Ok(Some(Pair {
            given: entry_number(given)?,
            shown: entry_number(shown)?,
        }))
    } else {
        Ok(None)
    }
}

// A node that makes an axiom with the given one.
fn pair_with(table: &GroundTable, nodes: &[Node], given: usize) -> Result<Option<Pair>, NoMemory>
    requires { given < length nodes.now }
    ensures { IfOk result (λ o. MatchOption o ((k : ℕ) → k < length nodes.now → ¬ (MakesAxiomAt (map (the_node table.now) nodes.now) given k))
        (λ p. ArePair (map (the_node table.now) nodes.now) p)) }
{
    for shown in 0..nodes.len() {
        if let Some(pair) = pair_at(table, nodes, given, shown)? {
            return Ok(Some(pair));
        }
    }
    Ok(None)
}

/// An axiom of the branch, if there is one.
pub fn any_pair(table: &GroundTable, nodes: &[Node]) -> Result<Option<Pair>, NoMemory>
    ensures { IfOk result (λ o. MatchOption o ((j : ℕ) (k : ℕ) → j < length nodes.now → k < length nodes.now → ¬ (MakesAxiomAt (map (the_node table.now) nodes.now) j k))
        (λ p. ArePair (map (the_node table.now) nodes.now) p)) }
{
    for given in 0..nodes.len() {
        if let Some(pair) = pair_with(table, nodes, given)? {
            return Ok(Some(pair));
        }
    }
    Ok(None)
}
