//! How far the walk over the files has come.

ghost use Rattle.std.specs.Prelude.{◌≤◌};

use crate::passed::Passed;
use crate::selection::Selection;
use cop_base::Text;
use std::alloc::Global;

/// What the whole walk goes by: whether the problem is modal, and the root of included files.
#[derive(Drop)]
pub(crate) struct WalkRules {
    pub(crate) alloc: Global,
    pub(crate) modal: bool,
    pub(crate) root: Text,
}

/// The bytes of all files that were fetched, the formulas that pass, and the lists of names that
/// enclose the place where the walk is, the outer ones first.
#[derive(Drop)]
pub(crate) struct Walk {
    pub(crate) bytes: u64,
    pub(crate) passed: Vec<Passed>,
    pub(crate) lists: Vec<Selection>,
    ghost within: { bytes ≤ 16777216 },
}
