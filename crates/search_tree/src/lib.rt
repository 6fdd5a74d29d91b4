//! The tree that a search grows: its goals and choices, the choice points, and what shows of a goal that
//! no choice closes it.
#![tactic(auto)]

mod atoms;
mod failed;
mod goal_key;
mod heads;
mod label_tests;
mod literal_marks;
mod look;
mod occurrences;
mod pair;
mod point;
mod regular;
mod state;
mod tree;
mod uncopied;

pub use atoms::{meets, other, reference_at};
pub use failed::Failed;
pub use heads::{has_clash, have_clash};
pub use label_tests::Tests;
pub use literal_marks::{has_no_hope_by, is_hopeless_place, marks_of};
pub use look::Look;
pub use point::{Move, Point};
pub use state::SearchState;
pub use tree::{Copied, Goal, Step, Tree};
