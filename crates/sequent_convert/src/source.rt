//! What a conversion goes by.

use name_order::Named;
use sequent_calc::Names;
use std::alloc::Global;
use tableau_core::{SizedProblem, Tableau};

/// The problem, the names and turns of its tableau, and the name lines of the derivation.
#[derive(Clone, Copy)]
pub struct Source<'a> {
    pub alloc: Global,
    pub problem: &'a SizedProblem<'a>,
    pub tableau: &'a Tableau,
    pub limit: u8,
    pub named: &'a Named,
    pub names: &'a Names,
    /// Whether there is an atom at each position of the formula.
    pub atoms: &'a [bool],
    /// For each instance of the tableau, the number of instances of its closing.
    pub sizes: &'a [usize],
}
