//! The branch of a derivation that is judged: entries point into the problem's formula, and share
//! the terms that are put for its variables and their labels.
#![tactic(auto)]

mod addition;
mod comparison;
mod connection;
mod entry;
mod following;
mod leaves;
mod number_set;
mod outline;
mod row_set;
mod same_atoms;
mod scope;
mod substitution;

pub use addition::{Added, added_by};
pub use connection::connects;
pub use entry::SharedEntry;
pub use leaves::add_eigens;
pub use number_set::NumberSet;
pub use outline::{Node, Outline};
pub use same_atoms::SameAtoms;
pub use substitution::{Substitutions, Value};
