//! Which steps of a derivation are left when its idle steps go: a walk from the last step to the
//! first that counts how often the steps that are left refer to each entry of the branch.
#![tactic(auto)]

mod counts;
mod marking;

pub use marking::marks;
