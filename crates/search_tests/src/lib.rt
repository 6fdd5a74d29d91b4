//! The tests of the search, from its store to deepening, over the built libraries: a crate with
//! tests of its own is proved twice, and the crates of the search are dear to prove.
#![tactic(auto)]

#[cfg(test)]
mod cuts;
#[cfg(test)]
mod doubling;
#[cfg(test)]
mod ends;
#[cfg(test)]
mod matching;
#[cfg(test)]
mod matrices;
#[cfg(test)]
mod modal;
#[cfg(test)]
mod pruned;
#[cfg(test)]
mod searches;
#[cfg(test)]
mod shared_values;
#[cfg(test)]
mod stores;
#[cfg(test)]
mod unifying;
