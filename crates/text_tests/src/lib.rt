//! The tests of the canonical texts, in both versions of a derivation, and of their judgement, over the
//! built libraries: a crate with tests of its own is proved twice.
#![tactic(auto)]

#[cfg(test)]
mod branches;
#[cfg(test)]
mod depth;
#[cfg(test)]
mod derivations;
#[cfg(test)]
mod formulas;
#[cfg(test)]
mod judging;
#[cfg(test)]
mod stepping;
#[cfg(test)]
mod terms;
#[cfg(test)]
mod versions;
