//! The theory of the store: cells with bindings and a trail, patterns and their copies, label equations. Definitions and laws,
//! without code.
#![tactic(auto)]
