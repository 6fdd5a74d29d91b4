//! Derivations without idle steps: definitions and laws. A step is idle where nothing below it
//! refers to an entry that it adds, and a fork where one of its sides does not refer to the entry
//! that is added there. The types are those of the walk that finds idle steps.
#![tactic(auto)]

pub mod edit;
pub mod pass;
