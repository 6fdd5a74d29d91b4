//! The theory of the connection search: definitions and laws, without code.
#![tactic(auto)]
