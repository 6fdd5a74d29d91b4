//! Prefix unification: equations between labels, solved for all lists of string lengths in order.
#![tactic(auto)]

mod apart;
mod bit_table;
mod choosing;
mod ends;
mod equal;
mod growing;
mod joining;
mod lengths;
mod meeting;
mod next_lengths;
mod node;
mod order;
mod places;
mod proposing;
mod refuting;
mod rules;
mod same;
mod solving;
mod trying;
mod uses;

pub use refuting::is_refuted;
pub use solving::{Solved, solve};
