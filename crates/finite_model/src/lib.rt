//! Finite Kripke structures that refute a formula: their text, the conditions of a logic and its domains, and the truth of a formula at
//! the root.
#![tactic(auto)]

mod asked;
mod conditions;
mod entries;
mod fault;
mod functions;
mod head;
mod judging;
mod making;
mod persistence;
mod reader;
mod shortening;
mod sizes;
mod slot;
mod slots;
mod structure;
mod symbols;
mod truth;
mod tuples;
mod value;

pub use calculus::fault::StructureCause;
pub use fault::StructureRead;
pub use judging::{Judged, judge};
pub use reader::read_structure;
pub use structure::Structure;
