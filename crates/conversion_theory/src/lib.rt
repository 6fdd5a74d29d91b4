//! The theory of the conversion of tableaux to derivations: turns and their order, numbers of names, branches, and how a
//! tableau leads them. Definitions and laws, without code.
#![tactic(auto)]
