//! Turns that are made on the branch at hand.

ghost use Rattle.std.specs.Prelude.{◌≡◌, ◌≢◌, ◌+◌, ◌++◌, ◌∷◌, [], suc, Some, None, true, OnOk, Contains, length, map, slice_get};
ghost use Rattle.conversion_theory.specs.Branches.{Item, splits};
ghost use Rattle.calculus.specs.Derivations as derivation;
ghost use Rattle.calculus.specs.Derivations.{no_term};
ghost use Rattle.calculus.specs.Text.{is_number};
ghost use Rattle.sequent_calc.specs.StepView.{the_modal, the_term_arg};
ghost use Rattle.sequent_convert.specs.ByNumber.AheadView.{the_ahead};
ghost use Rattle.sequent_convert.specs.ByNumber.NodeView.{the_node};
ghost use Rattle.sequent_convert.specs.ByNumber.RunView.{IsSeen, WorksAt, own_values, the_lists, the_run, the_source, the_table};
ghost use Rattle.sequent_convert.specs.declared.source.Source.{Source as TheSource};
ghost use Rattle.sequent_convert.specs.State.{ComesFor, IsBasis, IsFirst, IsOpenRun, Moves, made_of};

use crate::ahead::Ahead;
use crate::axiom::entry_number;
use crate::make::Made;
use crate::node::Node;
use crate::parts::parts_at;
use crate::run::{Run, Waiting};
use crate::source::Source;
use crate::turns::{find_node, made_at};
use cop_base::NoMemory;
use sequent_calc::{ModalArg, Step, StepList, TermArg};

fn push_use(
    steps: &mut StepList,
    place: usize,
    modal: ModalArg,
    term: TermArg,
) -> Result<(), NoMemory>
    ensures step { OnOk result (steps.new ≡ steps.old ++ derivation.apply_to (suc place) (the_modal modal) (the_term_arg term) ∷ []) }
    ensures number { OnOk result (is_number (suc place) ≡ true) }
{
    let entry = entry_number(place)?;
    steps.push(Step::Use { entry, modal, term })?;
    Ok(())
}

impl<'a> Run<'a> {
    // Makes a turn that can come, or passes it over where it works on no node of the branch.
    #[tactic(auto, using(crate::proofs::ByNumber::PairLaws::pairs))]
    pub(crate) fn make_turn(
        &mut self,
        source: &Source<'a>,
        turn: usize,
        first: usize,
    ) -> Result<(), NoMemory>
        requires basis { IsBasis (the_source source.now) }
        requires run { IsOpenRun (the_source source.now) (the_run source.now self.old) }
        requires first { IsFirst (the_run source.now self.old) first }
        requires comes { ComesFor (the_source source.now) self.old.branch.done first turn }
        requires unseen { self.old.seen ≡ None }
        ensures moves { OnOk result (Moves (the_source source.now) (the_run source.now self.old) (the_run source.now self.new)) }
        ensures seen { OnOk result (IsSeen (map (the_node (the_lists source.now)) self.new.branch.nodes.items) self.new.seen) }
    {
        match find_node(source, &self.branch, turn) {
            None => {
                self.pass_over(turn)?;
                Ok(())
            }
            Some(place) => {
                self.make_at(source, turn, first, place)?;
                Ok(())
            }
        }
    }

    // Makes a turn that works on the node at the place.
    #[tactic(auto, using(crate::proofs::ByNumber::PairLaws::pairs))]
    fn make_at(
        &mut self,
        source: &Source<'a>,
        turn: usize,
        first: usize,
        place: usize,
    ) -> Result<(), NoMemory>
        requires basis { IsBasis (the_source source.now) }
        requires run { IsOpenRun (the_source source.now) (the_run source.now self.old) }
        requires first { IsFirst (the_run source.now self.old) first }
        requires comes { ComesFor (the_source source.now) self.old.branch.done first turn }
        requires works { WorksAt (the_source source.now) (map (the_node (the_lists source.now)) self.old.branch.nodes.items) turn place }
        requires unseen { self.old.seen ≡ None }
        ensures moves { OnOk result (Moves (the_source source.now) (the_run source.now self.old) (the_run source.now self.new)) }
        ensures seen { OnOk result (IsSeen (map (the_node (the_lists source.now)) self.new.branch.nodes.items) self.new.seen) }
    {
        let made = made_at(source, &self.branch, place, turn)?;
        match made {
            Made::Rests => {
                entry_number(place)?;
                self.pass_over(turn)?;
                Ok(())
            }
            Made::Grows(modal, term, nodes) => {
                self.grow(source, turn, place, modal, term, nodes)?;
                Ok(())
            }
            Made::Splits(modal, left, right) => {
                self.split(source, turn, first, place, modal, left, right)?;
                Ok(())
            }
        }
    }

    // The turn is done, and changes nothing.
    fn pass_over(&mut self, turn: usize) -> Result<(), NoMemory>
        requires new { ¬ (Contains self.old.branch.done turn) }
        ensures run { OnOk result ((s : TheSource) → the_run s self.new ≡ record (the_run s self.old) { done = self.old.branch.done ++ turn ∷ [] }) }
        ensures nodes { self.new.branch.nodes.items ≡ self.old.branch.nodes.items }
        ensures seen { self.new.seen ≡ self.old.seen }
    {
        self.branch.done.push(turn)?;
        Ok(())
    }

    // Makes a turn that forks the branch. Where it is the turn ahead, each of the two goes to its
    // part, else both have ahead what the branch had.
    fn split(
        &mut self,
        source: &Source<'a>,
        turn: usize,
        first: usize,
        place: usize,
        modal: ModalArg,
        left: Node<'a>,
        right: Node<'a>,
    ) -> Result<(), NoMemory>
        requires basis { IsBasis (the_source source.now) }
        requires run { IsOpenRun (the_source source.now) (the_run source.now self.old) }
        requires first { IsFirst (the_run source.now self.old) first }
        requires comes { ComesFor (the_source source.now) self.old.branch.done first turn }
        requires works { WorksAt (the_source source.now) (map (the_node (the_lists source.now)) self.old.branch.nodes.items) turn place }
        requires made { (i : Item) → slice_get (map (the_node (the_lists source.now)) self.old.branch.nodes.items) place ≡ Some i
            → splits (the_modal modal) (the_node (the_lists source.now) left) (the_node (the_lists source.now) right) ≡ made_of (the_source source.now) i (own_values (the_source source.now) turn i) }
        ensures moves { OnOk result (Moves (the_source source.now) (the_run source.now self.old) (the_run source.now self.new)) }
        ensures seen { OnOk result (IsSeen (map (the_node (the_lists source.now)) self.new.branch.nodes.items) self.new.seen) }
    {
        if turn == first {
            self.split_ahead(source, turn, place, modal, left, right)?;
            Ok(())
        } else {
            self.split_other(source, turn, first, place, modal, left, right)?;
            Ok(())
        }
    }

    // The turn ahead forks the branch: each of the two goes to its part.
    fn split_ahead(
        &mut self,
        source: &Source<'a>,
        turn: usize,
        place: usize,
        modal: ModalArg,
        left: Node<'a>,
        right: Node<'a>,
    ) -> Result<(), NoMemory>
        requires basis { IsBasis (the_source source.now) }
        requires run { IsOpenRun (the_source source.now) (the_run source.now self.old) }
        requires first { IsFirst (the_run source.now self.old) turn }
        requires comes { ComesFor (the_source source.now) self.old.branch.done turn turn }
        requires works { WorksAt (the_source source.now) (map (the_node (the_lists source.now)) self.old.branch.nodes.items) turn place }
        requires made { (i : Item) → slice_get (map (the_node (the_lists source.now)) self.old.branch.nodes.items) place ≡ Some i
            → splits (the_modal modal) (the_node (the_lists source.now) left) (the_node (the_lists source.now) right) ≡ made_of (the_source source.now) i (own_values (the_source source.now) turn i) }
        ensures moves { OnOk result (Moves (the_source source.now) (the_run source.now self.old) (the_run source.now self.new)) }
        ensures seen { OnOk result (IsSeen (map (the_node (the_lists source.now)) self.new.branch.nodes.items) self.new.seen) }
    {
        let parts = parts_at(source, &self.ahead, right.spot.position);
        self.fork(source, turn, place, modal, left, right, parts.0, parts.1)?;
        Ok(())
    }

    // Another turn forks the branch: both have ahead what the branch had.
    fn split_other(
        &mut self,
        source: &Source<'a>,
        turn: usize,
        first: usize,
        place: usize,
        modal: ModalArg,
        left: Node<'a>,
        right: Node<'a>,
    ) -> Result<(), NoMemory>
        requires basis { IsBasis (the_source source.now) }
        requires run { IsOpenRun (the_source source.now) (the_run source.now self.old) }
        requires other { first ≢ turn }
        requires first { IsFirst (the_run source.now self.old) first }
        requires comes { ComesFor (the_source source.now) self.old.branch.done first turn }
        requires works { WorksAt (the_source source.now) (map (the_node (the_lists source.now)) self.old.branch.nodes.items) turn place }
        requires made { (i : Item) → slice_get (map (the_node (the_lists source.now)) self.old.branch.nodes.items) place ≡ Some i
            → splits (the_modal modal) (the_node (the_lists source.now) left) (the_node (the_lists source.now) right) ≡ made_of (the_source source.now) i (own_values (the_source source.now) turn i) }
        ensures moves { OnOk result (Moves (the_source source.now) (the_run source.now self.old) (the_run source.now self.new)) }
        ensures seen { OnOk result (IsSeen (map (the_node (the_lists source.now)) self.new.branch.nodes.items) self.new.seen) }
    {
        let ahead = self.ahead;
        self.fork(source, turn, place, modal, left, right, ahead, ahead)?;
        Ok(())
    }

    // Makes a turn that adds nodes.
    #[tactic(auto, using(crate::proofs::ByNumber::PairLaws::pairs))]
    fn grow(
        &mut self,
        source: &Source<'a>,
        turn: usize,
        place: usize,
        modal: ModalArg,
        term: TermArg,
        nodes: Vec<Node<'a>>,
    ) -> Result<(), NoMemory>
        requires new { ¬ (Contains self.old.branch.done turn) }
        requires basis { IsBasis (the_source source.now) }
        ensures run { OnOk result (the_run source.now self.new ≡ record (the_run source.now self.old) {
          steps = self.old.steps ++ derivation.apply_to (suc place) (the_modal modal) (the_term_arg term) ∷ [];
          items = map (the_node (the_lists source.now)) self.old.branch.nodes.items ++ map (the_node (the_lists source.now)) nodes.entry.items;
          done = self.old.branch.done ++ turn ∷ [];
        }) }
        ensures number { OnOk result (is_number (suc place) ≡ true) }
        ensures seen { OnOk result (IsSeen (map (the_node (the_lists source.now)) self.new.branch.nodes.items) self.new.seen) }
    {
        push_use(&mut self.steps, place, modal, term)?;
        self.branch.done.push(turn)?;
        self.seen = self.branch.add_all(source, nodes)?;
        Ok(())
    }

    // Makes a turn that forks the branch.
    #[tactic(auto, using(crate::proofs::ByNumber::PairLaws::pairs))]
    fn fork(
        &mut self,
        source: &Source<'a>,
        turn: usize,
        place: usize,
        modal: ModalArg,
        left: Node<'a>,
        right: Node<'a>,
        here: Ahead<'a>,
        there: Ahead<'a>,
    ) -> Result<(), NoMemory>
        requires basis { IsBasis (the_source source.now) }
        requires new { ¬ (Contains self.old.branch.done turn) }
        ensures run { OnOk result (the_run source.now self.new ≡ record (the_run source.now self.old) {
          steps = self.old.steps ++ derivation.apply_to (suc place) (the_modal modal) no_term ∷ [];
          items = map (the_node (the_lists source.now)) self.old.branch.nodes.items ++ the_node (the_lists source.now) left.entry ∷ [];
          done = self.old.branch.done ++ turn ∷ [];
          ahead = the_ahead (the_table source.now) here.entry;
          waiting = record { nodes = length (map (the_node (the_lists source.now)) self.old.branch.nodes.items); done = length self.old.branch.done + 1; node = the_node (the_lists source.now) right.entry; ahead = the_ahead (the_table source.now) there.entry } ∷ (the_run source.now self.old).waiting;
        }) }
        ensures number { OnOk result (is_number (suc place) ≡ true) }
        ensures seen { OnOk result (IsSeen (map (the_node (the_lists source.now)) self.new.branch.nodes.items) self.new.seen) }
    {
        push_use(&mut self.steps, place, modal, TermArg::None)?;
        self.branch.done.push(turn)?;
        self.waiting.push(Waiting {
            nodes: self.branch.nodes.len(),
            done: self.branch.done.len(),
            node: right,
            ahead: there,
        })?;
        self.ahead = here;
        self.seen = self.branch.add(source, left)?;
        Ok(())
    }
}
