//! A file for each command.

pub mod check;
pub mod convert;
pub mod make;
pub mod migrate;
pub mod model;
pub mod prove;
pub mod tableau;
pub mod tcheck;
pub mod transfer;
