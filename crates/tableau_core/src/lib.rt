//! Ground connection tableaux: clause instances, closings, choice lists and their order.
#![tactic(auto)]

mod admission;
mod allowance;
mod atom;
mod choice;
mod closed;
mod closing;
mod count;
mod home;
mod instance;
mod literal;
mod part;
mod parts;
mod pattern;
mod references;
mod selection;
mod sized;
mod sizes;
mod spot;
mod tableau;
mod walk;
mod way;

pub use admission::{admitted_lists, are_known_values};
pub use allowance::is_allowed;
pub use atom::{are_complementary, is_connected, is_new_on};
pub use calculus::sign::Side;
pub use choice::{Choice, compare};
pub use closed::{are_shown, goals_but, is_closed};
pub use closing::{Closing, ClosingList};
pub use home::eigen_home;
pub use instance::ClauseInstance;
pub use literal::{GroundLiteral, LiteralList};
pub use part::Part;
pub use parts::{Parts, components_of};
pub use references::given;
pub use selection::Selection;
pub use sized::SizedProblem;
pub use spot::MarkAt;
pub use tableau::Tableau;
pub use way::{Inside, towards};
