//! Terms and formulas.
#![tactic(auto)]

mod components;
mod count;
mod formula;
mod ground;
mod place;
mod symbol;
mod table;
mod term;

pub use calculus::kind::Shape;
pub use calculus::sign::Sign;
pub use components::{Components, Signed};
pub use count::{clause_count, literal_count, nesting, node_count};
pub use formula::Formula;
pub use ground::{GroundLabel, GroundMark, GroundTerm, GroundTerms, Value, Values};
pub use symbol::{AddFault, Symbol, SymbolClass, Symbols};
pub use table::GroundTable;
pub use term::{Term, Terms};
