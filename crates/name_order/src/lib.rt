//! The numbers of the names of a tableau, and the order in which its turns are made.
#![tactic(auto)]

mod agenda;
mod awaited;
mod collect;
mod depth;
mod guide;
mod holding;
mod inside;
mod keys;
mod named;
mod names;
mod naming;
mod numbering;
mod numbers;
mod place;
mod reached;
mod terms;
mod turn;
mod walk;

pub use named::{Named, name};
pub use names::Name;
pub use turn::Turn;
