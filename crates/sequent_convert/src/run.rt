//! The loop of the converter.

ghost use Rattle.std.specs.Prelude.{◌≡◌, ◌<◌, None, true, IfOk, OnOk, length, map};
ghost use Rattle.calculus.specs.declared.sign.Sign.TheVariants.{F};
ghost use Rattle.calculus.specs.Instances.{root_spot};
ghost use Rattle.conversion_theory.specs.Branches.{item};
ghost use Rattle.sequent_convert.specs.ByNumber.NodeView.{the_node};
ghost use Rattle.sequent_convert.specs.ByNumber.RunView.{IsSeen, the_lists, the_run, the_source};
ghost use Rattle.sequent_convert.specs.State.{IsBasis, IsOpenRun, IsRun, Moves};

use crate::ahead::{Ahead, Ends};
use crate::axiom::Pair;
use crate::branch::Branch;
use crate::node::Node;
use crate::source::Source;
use crate::spot::Spot;
use crate::turns::next_turn;
use cop_base::NoMemory;
use formula_core::GroundTable;
use sequent_calc::StepList;

/// The second branch of a fork: where it begins to differ, its first node there, and what is ahead.
#[derive(Drop)]
pub struct Waiting<'a> {
    pub nodes: usize,
    pub done: usize,
    pub node: Node<'a>,
    pub ahead: Ahead<'a>,
}

/// A conversion as it runs: the steps so far, the branch at hand, and those that wait.
#[derive(Drop)]
pub struct Run<'a> {
    pub is_open: bool,
    pub steps: StepList,
    pub branch: Branch<'a>,
    pub ahead: Ahead<'a>,
    pub seen: Option<Pair>,
    pub waiting: Vec<Waiting<'a>>,
}

// The problem's formula at the root.
fn root_node<'a>(source: &Source<'a>) -> Result<Node<'a>, NoMemory>
    ensures { IfOk result (λ n. the_node (the_lists source.now) n ≡ item root_spot F source.now.problem.now.formula) }
{
    let _few = source.named.table().len();
    Ok(Node {
        spot: Spot::root(source.alloc)?,
        part: source.problem.whole(),
        past: false,
    })
}

impl<'a> Run<'a> {
    /// Before the first step. The finder begins with the table of the names.
    #[tactic(auto, using(crate::proofs::OrderLaws::orders, crate::proofs::ByNumber::PairLaws::pairs))]
    pub fn new(source: &Source<'a>, finder: GroundTable) -> Result<Run<'a>, NoMemory>
        requires basis { IsBasis (the_source source.now) }
        ensures run { IfOk result (λ r. IsRun (the_source source.now) (the_run source.now r)) }
        ensures seen { IfOk result (λ r. IsSeen (map (the_node (the_lists source.now)) r.branch.nodes.items) r.seen) }
    {
        let steps = StepList::new(source.alloc);
        let mut branch = Branch::new(source.alloc, finder);
        let turns = source.named.order(0);
        let ends = Ends::of_start(&source.tableau.goals);
        let waiting = Vec::new(source.alloc);
        let root = root_node(source)?;
        let seen = branch.add(source, root)?;
        Ok(Run {
            is_open: true,
            steps,
            branch,
            ahead: Ahead {
                turns,
                ends,
                instance: 1,
            },
            seen,
            waiting,
        })
    }

    /// Goes on with the branch at hand.
    #[tactic(auto, using(crate::proofs::ByNumber::StateLaws::states))]
    pub fn advance(&mut self, source: &Source<'a>) -> Result<(), NoMemory>
        requires basis { IsBasis (the_source source.now) }
        requires is_open { self.old.is_open ≡ true }
        requires run { IsOpenRun (the_source source.now) (the_run source.now self.old) }
        requires seen { IsSeen (map (the_node (the_lists source.now)) self.old.branch.nodes.items) self.old.seen }
        ensures moves { OnOk result (Moves (the_source source.now) (the_run source.now self.old) (the_run source.now self.new)) }
        ensures seen { OnOk result (IsSeen (map (the_node (the_lists source.now)) self.new.branch.nodes.items) self.new.seen) }
    {
        match self.seen {
            Some(pair) => {
                self.close(source, pair)?;
                Ok(())
            }
            None => {
                self.lead(source)?;
                Ok(())
            }
        }
    }

    // Makes the turn ahead, or first one that it waits for; where it is done, goes on from it.
    #[tactic(auto, using(crate::proofs::ByNumber::StateLaws::states))]
    fn lead(&mut self, source: &Source<'a>) -> Result<(), NoMemory>
        requires basis { IsBasis (the_source source.now) }
        requires some { 0 < length self.old.ahead.turns.now }
        requires is_open { self.old.is_open ≡ true }
        requires run { IsOpenRun (the_source source.now) (the_run source.now self.old) }
        requires unseen { self.old.seen ≡ None }
        ensures moves { OnOk result (Moves (the_source source.now) (the_run source.now self.old) (the_run source.now self.new)) }
        ensures seen { OnOk result (IsSeen (map (the_node (the_lists source.now)) self.new.branch.nodes.items) self.new.seen) }
    {
        let turn = self.ahead.turns[0];
        if self.branch.done.has(turn) {
            self.follow(source, turn)?;
            return Ok(());
        }
        let next = next_turn(source, &self.branch, turn);
        self.make_turn(source, next, turn)?;
        Ok(())
    }
}
