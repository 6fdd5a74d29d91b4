//! The tests of formulas, of the logics' rules, of tableaux and of finite structures, over the built
//! libraries: a crate with tests of its own is proved twice.
#![tactic(auto)]

#[cfg(test)]
mod formulas;
#[cfg(test)]
mod rules;
#[cfg(test)]
mod structure_faults;
#[cfg(test)]
mod structure_helpers;
#[cfg(test)]
mod structure_rows;
#[cfg(test)]
mod tableaux;
