//! Laws of lists, options, booleans and numbers, which name nothing of this project. Without code.
#![tactic(auto)]
