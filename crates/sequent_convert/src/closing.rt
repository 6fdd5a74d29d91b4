//! Branches that are closed by an axiom.

ghost use Rattle.std.specs.Prelude.{◌≡◌, ◌<◌, ◌++◌, ◌∷◌, [], ℕ, true, false, OnOk, length, map, take};
ghost use Rattle.calculus.specs.Derivations as derivation;
ghost use Rattle.sequent_convert.specs.ByNumber.AheadView.{the_ahead};
ghost use Rattle.sequent_convert.specs.ByNumber.NodeView.{the_node};
ghost use Rattle.sequent_convert.specs.ByNumber.Pairs.{ArePair, MakesAxiomAt};
ghost use Rattle.sequent_convert.specs.ByNumber.RunView.{IsSeen, the_lists, the_run, the_source, the_table};
ghost use Rattle.sequent_convert.specs.State.{IsBasis, IsOpenRun, Moves};

use crate::axiom::{Pair, any_pair};
use crate::run::{Run, Waiting};
use crate::source::Source;
use cop_base::NoMemory;
use sequent_calc::{Step, StepList};

fn push_axiom(steps: &mut StepList, pair: Pair) -> Result<(), NoMemory>
    ensures { OnOk result (steps.new ≡ steps.old ++ derivation.close pair.given pair.shown ∷ []) }
{
    steps.push(Step::Axiom {
        given: pair.given,
        shown: pair.shown,
    })?;
    Ok(())
}

impl<'a> Run<'a> {
    // An axiom stands on the branch.
    pub(crate) fn end_now(&mut self, source: &Source<'a>) -> Result<(), NoMemory>
        requires basis { IsBasis (the_source source.now) }
        requires is_open { self.old.is_open ≡ true }
        requires run { IsOpenRun (the_source source.now) (the_run source.now self.old) }
        requires pair { ((j : ℕ) → (m : ℕ) → j < length self.old.branch.nodes.items → m < length self.old.branch.nodes.items
            → MakesAxiomAt (map (the_node (the_lists source.now)) self.old.branch.nodes.items) j m → ⊥) → ⊥ }
        ensures moves { OnOk result (Moves (the_source source.now) (the_run source.now self.old) (the_run source.now self.new)) }
        ensures seen { OnOk result (IsSeen (map (the_node (the_lists source.now)) self.new.branch.nodes.items) self.new.seen) }
    {
        match any_pair(source.named.table(), self.branch.nodes.as_slice())? {
            Some(pair) => {
                self.close(source, pair)?;
                Ok(())
            }
            None => unreachable!(),
        }
    }

    // Closes the branch at hand and goes on with the one that waited last.
    #[tactic(auto, using(crate::proofs::ByNumber::PairLaws::pairs))]
    pub(crate) fn close(&mut self, source: &Source<'a>, pair: Pair) -> Result<(), NoMemory>
        requires basis { IsBasis (the_source source.now) }
        requires is_open { self.old.is_open ≡ true }
        requires run { IsOpenRun (the_source source.now) (the_run source.now self.old) }
        requires pair { ArePair (map (the_node (the_lists source.now)) self.old.branch.nodes.items) pair }
        ensures moves { OnOk result (Moves (the_source source.now) (the_run source.now self.old) (the_run source.now self.new)) }
        ensures seen { OnOk result (IsSeen (map (the_node (the_lists source.now)) self.new.branch.nodes.items) self.new.seen) }
    {
        push_axiom(&mut self.steps, pair)?;
        self.seen = None;
        match self.waiting.pop() {
            None => {
                self.is_open = false;
                Ok(())
            }
            Some(next) => {
                self.resume(source, next)?;
                Ok(())
            }
        }
    }

    #[tactic(auto, using(crate::proofs::ByNumber::PairLaws::pairs))]
    fn resume(&mut self, source: &Source<'a>, next: Waiting<'a>) -> Result<(), NoMemory>
        requires basis { IsBasis (the_source source.now) }
        ensures run { OnOk result (the_run source.now self.new ≡ record (the_run source.now self.old) {
          items = take next.entry.nodes (map (the_node (the_lists source.now)) self.old.branch.nodes.items) ++ the_node (the_lists source.now) next.entry.node ∷ [];
          done = take next.entry.done self.old.branch.done;
          ahead = the_ahead (the_table source.now) next.entry.ahead;
        }) }
        ensures seen { OnOk result (IsSeen (map (the_node (the_lists source.now)) self.new.branch.nodes.items) self.new.seen) }
    {
        self.branch.truncate(next.nodes, next.done);
        self.ahead = next.ahead;
        self.seen = self.branch.add(source, next.node)?;
        Ok(())
    }
}
