//! The branch at hand.

ghost use Rattle.std.specs.Prelude.{◌≡◌, ◌<◌, ◌++◌, ◌∷◌, [], IfOk, OnOk, IfSome, length, map, take};
ghost use Rattle.sequent_convert.specs.ByNumber.NodeView.{the_node};
ghost use Rattle.sequent_convert.specs.ByNumber.Pairs.{ArePair};
ghost use Rattle.sequent_convert.specs.ByNumber.RunView.{the_lists};

use crate::axiom::{Pair, pair_at};
use crate::done::Done;
use crate::literals::Literals;
use crate::node::Node;
use crate::source::Source;
use cop_base::NoMemory;
use formula_core::{Formula, GroundTable, Sign, Values};
use indexmap::IndexMap;
use std::alloc::Global;

/// The nodes of the branch, and the turns that are done there.
#[derive(Drop)]
pub struct Branch<'a> {
    pub nodes: Vec<Node<'a>>,
    pub done: Done,
    literals: Literals,
    // The place of a node at a position by the number of the values that were taken on the way there. One may be stale, as
    // truncation leaves them alone: they are hints.
    places: IndexMap<(u32, u32), usize>,
}

impl<'a> Branch<'a> {
    /// The branch without nodes. The table begins with that of the names.
    pub fn new(alloc: Global, table: GroundTable) -> Branch<'a>
        ensures nodes { result.nodes.items ≡ [] }
        ensures done { result.done ≡ [] }
    {
        Branch {
            nodes: Vec::new(alloc),
            done: Done::new(alloc),
            literals: Literals::new(alloc, table),
            places: IndexMap::new(alloc),
        }
    }

    /// Where the node at a position may stand on the way to which these values were taken.
    pub fn hint(&self, position: u32, taken: Values) -> usize {
        match self.places.get(&(position, taken.0)) {
            Some(place) => *place,
            None => self.nodes.len(),
        }
    }

    fn note(&mut self, node: &Node) -> Result<(), NoMemory>
        ensures nodes { self.new.nodes.items ≡ self.old.nodes.items }
        ensures done { self.new.done ≡ self.old.done }
    {
        let place = self.nodes.len();
        if !node.past {
            self.places
                .insert((node.spot.position, node.spot.taken.0), place)?;
        }
        Ok(())
    }

    /// Adds a node, and tells an axiom that it brings, if one is seen.
    #[tactic(auto, using(crate::proofs::ByNumber::PairLaws::pairs))]
    pub fn add(&mut self, source: &Source, node: Node<'a>) -> Result<Option<Pair>, NoMemory>
        ensures nodes { OnOk result (map (the_node (the_lists source.now)) self.new.nodes.items ≡ map (the_node (the_lists source.now)) self.old.nodes.items ++ the_node (the_lists source.now) node.entry ∷ []) }
        ensures done { OnOk result (self.new.done ≡ self.old.done) }
        ensures seen { IfOk result (λ o. IfSome o (ArePair (map (the_node (the_lists source.now)) self.new.nodes.items))) }
    {
        let place = self.nodes.len();
        let sign = node.part.sign;
        self.note(&node)?;
        let complement = complement_of(source, &mut self.literals, &node)?;
        self.nodes.push(node)?;
        match complement {
            None => Ok(None),
            Some(other) => {
                let seen = seen_pair(source, self.nodes.as_slice(), sign, place, other)?;
                Ok(seen)
            }
        }
    }

    /// Adds the nodes that a turn makes.
    #[tactic(auto, using(crate::proofs::ByNumber::PairLaws::pairs))]
    pub fn add_all(
        &mut self,
        source: &Source,
        nodes: Vec<Node<'a>>,
    ) -> Result<Option<Pair>, NoMemory>
        ensures nodes { OnOk result (map (the_node (the_lists source.now)) self.new.nodes.items ≡ map (the_node (the_lists source.now)) self.old.nodes.items ++ map (the_node (the_lists source.now)) nodes.entry.items) }
        ensures done { OnOk result (self.new.done ≡ self.old.done) }
        ensures seen { IfOk result (λ o. IfSome o (ArePair (map (the_node (the_lists source.now)) self.new.nodes.items))) }
    {
        let mut seen = None;
        for node in nodes {
            let pair = self.add(source, node)?;
            if pair.is_some() {
                seen = pair;
            }
        }
        Ok(seen)
    }

    /// Takes off what came past the first `nodes` nodes and `done` turns.
    pub fn truncate(&mut self, nodes: usize, done: usize)
        ensures nodes { self.new.nodes.items ≡ take nodes self.old.nodes.items }
        ensures done { self.new.done ≡ take done self.old.done }
    {
        self.nodes.truncate(nodes);
        self.literals.truncate(nodes);
        self.done.truncate(done);
    }
}

fn complement_of(
    source: &Source,
    literals: &mut Literals,
    node: &Node,
) -> Result<Option<usize>, NoMemory> {
    match node.part.formula {
        Formula::Atom(symbol, arguments) => {
            literals.add(source.alloc, node.part.sign, &node.spot, *symbol, arguments)
        }
        _ => {
            literals.add_other()?;
            Ok(None)
        }
    }
}

fn seen_pair(
    source: &Source,
    nodes: &[Node],
    sign: Sign,
    place: usize,
    other: usize,
) -> Result<Option<Pair>, NoMemory>
    ensures { IfOk result (λ o. IfSome o (ArePair (map (the_node (the_lists source.now)) nodes.now))) }
{
    if other >= nodes.len() || place >= nodes.len() {
        return Ok(None);
    }
    match sign {
        Sign::T => told_pair(source, nodes, place, other),
        Sign::F => told_pair(source, nodes, other, place),
    }
}

// The pair of the nodes at two places, by the table of the names.
fn told_pair(
    source: &Source,
    nodes: &[Node],
    given: usize,
    shown: usize,
) -> Result<Option<Pair>, NoMemory>
    requires given { given < length nodes.now }
    requires shown { shown < length nodes.now }
    ensures { IfOk result (λ o. IfSome o (ArePair (map (the_node (the_lists source.now)) nodes.now))) }
{
    let table = source.named.table();
    let pair = pair_at(table, nodes, given, shown)?;
    Ok(pair)
}
