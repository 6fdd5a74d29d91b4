//! The matrix of a problem: Skolemised clauses with prefixes, and the index of their literals.
#![tactic(auto)]

mod clause;
mod index;
mod matrix;
mod needs;
mod part;
mod pattern;
mod selections;
mod sizes;
mod template;
mod walk;
mod way;

pub use index::Place;
pub use matrix::{Matrix, MatrixFault, build_matrix};
pub use needs::{literal_at, with_mark};
