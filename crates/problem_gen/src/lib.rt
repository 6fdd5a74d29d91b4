//! Problems of any size from a number: three families that show how the search and the texts grow.
#![tactic(auto)]

mod chain;
mod generator;
mod item;
mod shift;
mod tower;

pub use calculus::family::Family;
pub use generator::make;
