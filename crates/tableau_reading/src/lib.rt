//! Lists of choices without open goals: what they ask of labels is solved, and the tableau is read off.
#![tactic(auto)]

mod building;
mod closings;
mod grounds;
mod homes;
mod parts;
mod reading;
mod solving;
mod system;

pub use closings::tableau_of;
pub use homes::{Homes, homes_of};
pub use reading::Source;
pub use solving::solve_system;
pub use system::{all_gammas, labels_of, system_of};
