//! The tests of the commands, over the built library: a crate with tests of its own is proved twice.
#![tactic(auto)]

#[cfg(test)]
mod check_tests;
#[cfg(test)]
mod cut_tests;
#[cfg(test)]
mod file_tests;
#[cfg(test)]
mod limit_tests;
#[cfg(test)]
mod make_tests;
#[cfg(test)]
mod model_tests;
#[cfg(test)]
mod prove_tests;
#[cfg(test)]
mod runs;
#[cfg(test)]
mod stream_tests;
#[cfg(test)]
mod tableau_tests;
#[cfg(test)]
mod transfer_tests;
#[cfg(test)]
mod version_tests;
#[cfg(test)]
mod word_tests;
