//! How often cells stand in the labels of equations.

ghost use Rattle.std.specs.Prelude.{◌≤◌, ◌<◌, IsTrue, length, map};
ghost use Rattle.store_theory.specs.Stores.{names_below};
ghost use Rattle.term_store.specs.RefView.{the_place};

use crate::ends::is_open_string;
use crate::places::{equation_at, reference_at};
use cop_base::NoMemory;
use std::alloc::Global;
use term_store::{Equation, Ref, Store};

// How often each cell from the first one on stands in labels.
#[derive(Drop)]
pub(crate) struct Uses {
    first: u32,
    counts: Vec<u32>,
}

fn least_of(label: &[Ref], least: u32) -> u32 {
    let mut least = least;
    for i in 0..label.len() {
        least = least.min(label[i].0);
    }
    least
}

fn greatest_of(label: &[Ref], greatest: u32) -> u32 {
    let mut greatest = greatest;
    for i in 0..label.len() {
        greatest = greatest.max(label[i].0);
    }
    greatest
}

fn least(equations: &[Equation], from: usize) -> u32 {
    let mut least = u32::MAX;
    for i in from..equations.len() {
        let e = equation_at(equations, i);
        least = least_of(e.right.items(), least_of(e.left.items(), least));
    }
    least
}

fn greatest(equations: &[Equation], from: usize) -> u32 {
    let mut greatest = 0;
    for i in from..equations.len() {
        let e = equation_at(equations, i);
        greatest = greatest_of(e.right.items(), greatest_of(e.left.items(), greatest));
    }
    greatest
}

impl Uses {
    // Counts the cells of all labels of the equations from this number on.
    pub(crate) fn of(alloc: Global, equations: &[Equation], from: usize) -> Result<Uses, NoMemory> {
        let first = least(equations, from);
        let size = greatest(equations, from).saturating_sub(first) as usize;
        let counts = vec![in alloc; 0; size.saturating_add(1)]?;
        let mut uses = Uses { first, counts };
        for i in from..equations.len() {
            let e = equation_at(equations, i);
            uses.count_label(e.left.items());
            uses.count_label(e.right.items());
        }
        Ok(uses)
    }

    fn place(&self, r: Ref) -> usize {
        r.0.saturating_sub(self.first) as usize
    }

    fn count(&mut self, r: Ref) {
        let place = self.place(r);
        if place < self.counts.len() {
            self.counts[place] = self.counts[place].saturating_add(1);
        }
    }

    fn count_label(&mut self, label: &[Ref]) {
        for i in 0..label.len() {
            self.count(label[i]);
        }
    }

    fn stands_once(&self, r: Ref) -> bool {
        let place = self.place(r);
        place < self.counts.len() && self.counts[place] == 1
    }

    // Whether an unbound string stands there, and in no label but this.
    fn is_lone(&self, store: &Store, r: Ref) -> bool
        requires { r.0 < length store.now.store.cells }
    {
        if !self.stands_once(r) {
            return false;
        }
        is_open_string(store, store.walk(r))
    }

    // How many items the label has before the strings at its end that stand in no other label.
    pub(crate) fn shown(&self, store: &Store, label: &[Ref]) -> usize
        requires { IsTrue (names_below (length store.now.store.cells) (map the_place label.now)) }
        ensures { result ≤ length label.now }
    {
        for i in 0..label.len() {
            let shown = label.len() - i;
            if !self.is_lone(store, reference_at(label, shown - 1)) {
                return shown;
            }
        }
        0
    }
}
