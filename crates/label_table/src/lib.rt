//! Labels that share their beginnings, each at one place of a table, so that equal labels have equal places and a label is told from
//! another in constant time.
#![tactic(auto)]

mod label_reading;
mod labels;
mod places;
mod relations;

pub use label_reading::label_at;
pub use labels::Labels;
pub use places::place_of;
pub use relations::{is_home_at, reaches};
