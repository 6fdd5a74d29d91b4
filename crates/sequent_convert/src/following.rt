//! What a branch goes on to from a turn that is done: along the instance, or to the one that closes its literal.

ghost use Rattle.std.specs.Prelude.{◌≡◌, None, true, OnOk, Contains, map, drop};
ghost use Rattle.calculus.specs.Lists.{closings_tree};
ghost use Rattle.sequent_convert.specs.AheadView.{IsExtended};
ghost use Rattle.sequent_convert.specs.ByNumber.AheadView.{the_ends};
ghost use Rattle.sequent_convert.specs.declared.source.Source.{Source as TheSource};
ghost use Rattle.tableau_core.specs.Numbered.ClosingView.{closing_in};
ghost use Rattle.sequent_convert.specs.ByNumber.NodeView.{the_node};
ghost use Rattle.sequent_convert.specs.ByNumber.RunView.{IsSeen, WorksAt, the_lists, the_run, the_source, the_table};
ghost use Rattle.sequent_convert.specs.State.{IsBasis, IsFirst, IsForkAhead, IsLiteralAhead, IsOpenRun, Moves};

use crate::ahead::{Ahead, Ends};
use crate::component::second_position;
use crate::parts::{parts_at, turns_from};
use crate::run::Run;
use crate::source::Source;
use crate::turns::{begins, begins_somewhere, find_node};
use cop_base::NoMemory;
use tableau_core::{ClosingList, Parts, components_of};

impl<'a> Run<'a> {
    // The turn ahead is done: goes on to what it left.
    #[tactic(auto, using(crate::proofs::ByNumber::StateLaws::states))]
    pub(crate) fn follow(&mut self, source: &Source<'a>, turn: usize) -> Result<(), NoMemory>
        requires basis { IsBasis (the_source source.now) }
        requires is_open { self.old.is_open ≡ true }
        requires run { IsOpenRun (the_source source.now) (the_run source.now self.old) }
        requires first { IsFirst (the_run source.now self.old) turn }
        requires done { Contains self.old.branch.done turn }
        requires unseen { self.old.seen ≡ None }
        ensures moves { OnOk result (Moves (the_source source.now) (the_run source.now self.old) (the_run source.now self.new)) }
        ensures seen { OnOk result (IsSeen (map (the_node (the_lists source.now)) self.new.branch.nodes.items) self.new.seen) }
    {
        match find_node(source, &self.branch, turn) {
            None => unreachable!(),
            Some(place) => {
                self.follow_at(source, turn, place)?;
                Ok(())
            }
        }
    }

    // Goes on from the node at the place, on which the turn ahead was made.
    fn follow_at(&mut self, source: &Source<'a>, turn: usize, place: usize) -> Result<(), NoMemory>
        requires basis { IsBasis (the_source source.now) }
        requires is_open { self.old.is_open ≡ true }
        requires run { IsOpenRun (the_source source.now) (the_run source.now self.old) }
        requires first { IsFirst (the_run source.now self.old) turn }
        requires done { Contains self.old.branch.done turn }
        requires works { WorksAt (the_source source.now) (map (the_node (the_lists source.now)) self.old.branch.nodes.items) turn place }
        requires unseen { self.old.seen ≡ None }
        ensures moves { OnOk result (Moves (the_source source.now) (the_run source.now self.old) (the_run source.now self.new)) }
        ensures seen { OnOk result (IsSeen (map (the_node (the_lists source.now)) self.new.branch.nodes.items) self.new.seen) }
    {
        let nodes = self.branch.nodes.as_slice();
        let node = &nodes[place];
        match components_of(node.part) {
            Parts::Literal(_, _) => {
                self.end(source)?;
                Ok(())
            }
            Parts::Beta(a, _) => {
                let second = second_position(node.spot.position, a);
                self.choose(source, second);
                Ok(())
            }
            Parts::One(_) => {
                self.go_on();
                Ok(())
            }
            Parts::Alpha(_, _) => {
                self.go_on();
                Ok(())
            }
            Parts::Gamma(_) => {
                self.go_on();
                Ok(())
            }
            Parts::Delta(_) => {
                self.go_on();
                Ok(())
            }
        }
    }

    // Goes on to the turn behind the first one ahead.
    fn go_on(&mut self)
        ensures run { (s : TheSource) → the_run s self.new ≡ record (the_run s self.old) {
          ahead = record {
            turns = drop 1 self.old.ahead.turns.now;
            ends = the_ends (the_table s) self.old.ahead.ends;
            instance = self.old.ahead.instance;
          };
        } }
        ensures seen { self.new.seen ≡ self.old.seen }
    {
        self.ahead.turns = turns_from(self.ahead.turns, 1);
    }

    // Goes on to the part of a fork that stands on the branch. The second part begins at the position.
    fn choose(&mut self, source: &Source<'a>, second: u32)
        requires basis { IsBasis (the_source source.now) }
        requires run { IsOpenRun (the_source source.now) (the_run source.now self.old) }
        requires ahead { IsForkAhead (the_source source.now) (the_run source.now self.old) second }
        requires unseen { self.old.seen ≡ None }
        ensures moves { Moves (the_source source.now) (the_run source.now self.old) (the_run source.now self.new) }
        ensures seen { IsSeen (map (the_node (the_lists source.now)) self.new.branch.nodes.items) self.new.seen }
    {
        let parts = parts_at(source, &self.ahead, second);
        if begins(source, &self.branch, parts.1.turns) {
            self.ahead = parts.1;
            return;
        }
        if begins_somewhere(source, &self.branch, parts.0.turns) {
            self.ahead = parts.0;
            return;
        }
        self.ahead = parts.1;
    }

    // The branch has come to a literal of the instance.
    fn end(&mut self, source: &Source<'a>) -> Result<(), NoMemory>
        requires basis { IsBasis (the_source source.now) }
        requires is_open { self.old.is_open ≡ true }
        requires run { IsOpenRun (the_source source.now) (the_run source.now self.old) }
        requires ahead { IsLiteralAhead (the_source source.now) (the_run source.now self.old) }
        requires unseen { self.old.seen ≡ None }
        ensures moves { OnOk result (Moves (the_source source.now) (the_run source.now self.old) (the_run source.now self.new)) }
        ensures seen { OnOk result (IsSeen (map (the_node (the_lists source.now)) self.new.branch.nodes.items) self.new.seen) }
    {
        match self.ahead.ends.extension() {
            None => {
                self.end_now(source)?;
                Ok(())
            }
            Some((place, goals)) => {
                self.extend(source, place, goals);
                Ok(())
            }
        }
    }

    // Goes on to the instance that closes the literal.
    fn extend(&mut self, source: &Source<'a>, place: usize, goals: &'a ClosingList)
        requires basis { IsBasis (the_source source.now) }
        requires run { IsOpenRun (the_source source.now) (the_run source.now self.old) }
        requires ahead { IsLiteralAhead (the_source source.now) (the_run source.now self.old) }
        requires extended { IsExtended (the_ends (the_table source.now) self.old.ahead.ends) place (closings_tree (map (closing_in (the_table source.now)) goals.now)) }
        requires unseen { self.old.seen ≡ None }
        ensures moves { Moves (the_source source.now) (the_run source.now self.old) (the_run source.now self.new) }
        ensures seen { IsSeen (map (the_node (the_lists source.now)) self.new.branch.nodes.items) self.new.seen }
    {
        let _called_for_its_bound = source.named.instances();
        let turns = source.named.order(self.ahead.instance);
        let ends = Ends::of_extension(goals, place);
        self.ahead = Ahead {
            turns,
            ends,
            instance: self.ahead.instance + 1,
        };
    }
}
