ghost use Rattle.std.specs.Prelude.{◌≡◌, []};

use crate::names::Names;
use crate::step::StepList;
use std::alloc::Global;

/// A derivation. Its limit is the path limit that its maker notes; no rule looks at it.
#[derive(Drop)]
pub struct Derivation {
    pub limit: u8,
    pub names: Names,
    pub steps: StepList,
}

impl Derivation {
    /// A derivation without names and steps, to which they are added.
    pub fn new(alloc: Global, limit: u8) -> Derivation
        ensures limit { result.limit ≡ limit }
        ensures eigens { result.names.eigens ≡ [] }
        ensures spares { result.names.spares ≡ [] }
        ensures steps { result.steps ≡ [] }
    {
        Derivation {
            limit,
            names: Names::new(alloc),
            steps: StepList::new(alloc),
        }
    }
}
