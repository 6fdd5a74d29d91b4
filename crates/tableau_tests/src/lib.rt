//! The tests of tableaux as texts, over the built libraries.
#![tactic(auto)]

#[cfg(test)]
mod texts;
#[cfg(test)]
mod verdicts;
