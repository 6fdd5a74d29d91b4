//! Stores of variables with bindings and a trail, as in Prolog machines.
#![tactic(auto)]

mod build;
mod cell;
mod clause;
mod copy;
mod copy_clause;
mod copy_lists;
mod demand;
mod free_lists;
mod home;
mod lists;
mod pattern;
mod slots;
mod store;
mod system;

pub use calculus::sign::Sign;
pub use calculus::sort::Sort;
pub use cell::{Content, End, Head, Ref, TrailMark, Variables};
pub use clause::{
    CellAtom, CellAtomList, CopiedClause, GammaList, GammaUse, PatternAtom, PatternAtomList,
    PatternGamma, PatternGammaList, Prefix, RefList, SortList, Template,
};
pub use demand::Demand;
pub use home::{Home, HomeList};
pub use pattern::{Pattern, Patterns};
pub use store::Store;
pub use system::{Equation, EquationList, PairList, System};
