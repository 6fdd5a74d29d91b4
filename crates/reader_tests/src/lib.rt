//! The tests of the outside, of cells and tokens, of the readers of TPTP and QMLTP, of generated problems
//! and of the problems that files hold, over the built libraries: a crate with tests of its own is proved
//! twice.
#![tactic(auto)]

#[cfg(test)]
mod cells;
#[cfg(test)]
mod families;
#[cfg(test)]
mod items;
#[cfg(test)]
mod modal_items;
#[cfg(test)]
mod outside;
#[cfg(test)]
mod problems;
#[cfg(test)]
mod tokens;
