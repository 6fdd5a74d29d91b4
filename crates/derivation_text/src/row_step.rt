//! Steps as they are read from a text of version 1: their terms stand in rows.

use sequent_calc::{ModalArg, RowArg};

/// A step, as `sequent_calc::Step`.
#[derive(Drop)]
pub enum RowStep {
    Use {
        entry: u32,
        modal: ModalArg,
        term: RowArg,
    },
    Axiom {
        given: u32,
        shown: u32,
    },
}
