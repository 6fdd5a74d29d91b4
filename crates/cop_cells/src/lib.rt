//! A list whose items are added, read and cut off without taking memory, once there is room for
//! them. Items stay where they are while the list grows.
#![tactic(auto)]

mod block;
mod cells;
mod pages;

pub use cells::Cells;
