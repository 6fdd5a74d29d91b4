//! Ground connection tableaux as texts: the moves of a tableau, their judgement by the rules of tableaux alone, and the tableau that
//! accepted moves build.
#![tactic(auto)]

mod building;
mod calls;
mod entering;
mod flattening;
mod gathering;
mod grounding;
mod judging;
mod numbers;
mod opening;
mod parse_fault;
mod resolving;
mod selection;
mod stepping;
mod task;
mod verdict;
mod way;

pub use calculus::fault::TableauFault;
pub use calls::{check_tableau, parse_tableau, print_tableau};
pub use parse_fault::TableauParse;
pub use verdict::TableauVerdict;
