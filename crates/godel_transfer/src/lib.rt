//! The way from intuitionistic logic into S4 with cumulative domains (Goedel): the translation of a
//! problem, and the transfer of a derivation to it.
#![tactic(auto)]

mod branches;
mod fault;
mod images;
mod label_image;
mod measures;
mod numbers;
mod steps;
mod term_image;
mod transferring;
mod translation;
mod using;

pub use fault::TransferFault;
pub use transferring::transfer;
pub use translation::translate;
