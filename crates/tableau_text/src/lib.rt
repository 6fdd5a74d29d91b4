//! The text of a ground connection tableau: what its lines state, writing them, and reading them with the first line that is wrong.
//!
//! A list of values may nest as deep as its text is long: writing and reading keep what is open on the heap, and memory alone bounds
//! the depth.
#![tactic(auto)]

mod begun;
mod bytes;
mod fault;
mod item;
mod line_reader;
mod line_writer;
mod moves;
mod open_list;
mod piece;
mod reader;
mod token;
mod values_reader;
mod values_writer;
mod writer;

pub use calculus::fault::TableauFault;
pub use fault::ReadFault;
pub use moves::{Chosen, Move, Moves};
pub use reader::read;
pub use writer::write;
