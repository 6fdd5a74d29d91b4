//! Derivations without idle steps. A step is idle where nothing below it refers to an entry that it
//! adds; a fork is idle where one of its sides does not refer to the entry that is added there, and
//! then that side stands in its place.
//!
//! Three loops over the steps find what is left and write it, in time linear in their number:
//! `passes` goes from the first step to the last and tells how each one goes on, `marks` goes back
//! and counts how often the steps that are left refer to each entry of the branch, and `write` goes
//! forward again and writes the steps that are left by their new numbers.
//!
//! Then steps that several branches make on the same entry are made once: `planning` says by which
//! edits, `editing` tests and makes them, and the three loops follow again. Where that leaves no
//! fewer steps, they stay as they were.
#![tactic(auto)]

mod editing;
mod growing;
mod mentioned;
mod parts;
mod passes;
mod planning;
mod sharing;
mod trimming;
mod writing;

pub use trimming::trim;
