//! The terms of a derivation's steps: in rows of their own, or over a table that keeps each list of arguments once. No call goes down
//! the levels of a term, so memory alone bounds how deep terms may be.
#![tactic(auto)]

mod shared_term;
mod table;
mod walk;

pub use shared_term::SharedTerm;
pub use table::{TableTerm, TermTable};
