//! The tests of the conversion of tableaux to derivations and of the way into S4, over the built
//! libraries: a crate with tests of its own is proved twice.
#![tactic(auto)]

#[cfg(test)]
mod converting;
#[cfg(test)]
mod deep;
#[cfg(test)]
mod example_tableaux;
#[cfg(test)]
mod transferring;
