//! What stands on the way from the root to the part of an instance that comes next.

ghost use Rattle.std.specs.Prelude.{◌≡◌, ◌≤◌, length, IfOk, None};
ghost use Rattle.formula_core.specs.GroundLists.{no_list};
ghost use Rattle.tableau_cert.specs.Made.{IsLabelled};
ghost use Rattle.tableau_cert.specs.WayView.{IsNormalWay, cut_back, empty_way, point_of, the_way};

use cop_base::NoMemory;
use formula_core::{GroundLabel, GroundMark, GroundTable, GroundTerm, Value};
use std::alloc::Global;

/// The characters of the labels on the way, those of the part's label from `start` on; the number of this
/// label, where the table is known to have it; the values taken; and the terms put for the variables, the
/// innermost last. Parts are walked through depth first, so each part that waits has a beginning of it.
#[derive(Drop)]
pub struct Way {
    pub label: Option<GroundLabel>,
    pub start: usize,
    pub marks: Vec<GroundMark>,
    pub taken: Vec<Value>,
    pub bindings: Vec<GroundTerm>,
}

/// How far the way to a part that waits goes.
#[derive(Clone, Copy)]
pub struct WayPoint {
    pub label: Option<GroundLabel>,
    pub start: usize,
    pub marks: usize,
    pub taken: usize,
    pub bindings: usize,
}

/// The point of the root.
pub fn root_point() -> WayPoint
    ensures { result ≡ record { label = None; start = 0; marks = 0; taken = 0; bindings = 0 } }
{
    WayPoint {
        label: None,
        start: 0,
        marks: 0,
        taken: 0,
        bindings: 0,
    }
}

impl Way {
    pub fn new(alloc: Global) -> Way
        ensures { the_way result ≡ empty_way }
    {
        Way {
            label: None,
            start: 0,
            marks: Vec::new(alloc),
            taken: Vec::new(alloc),
            bindings: Vec::new(alloc),
        }
    }

    /// The point at its end.
    pub fn end(&self) -> WayPoint
        ensures { result ≡ point_of (the_way self.now) }
    {
        WayPoint {
            label: self.label,
            start: self.start,
            marks: self.marks.len(),
            taken: self.taken.len(),
            bindings: self.bindings.len(),
        }
    }

    /// Goes back to the point.
    pub fn cut(&mut self, point: WayPoint)
        ensures { the_way self.new ≡ cut_back (the_way self.old) point }
    {
        self.label = point.label;
        self.start = point.start;
        self.marks.truncate(point.marks);
        self.taken.truncate(point.taken);
        self.bindings.truncate(point.bindings);
    }

    /// The number of the label, which enters the table where it is not known.
    pub fn label_in(&mut self, table: &mut GroundTable) -> Result<GroundLabel, NoMemory>
        requires way { IsNormalWay table.old (the_way self.old) }
        requires most { length table.old ≤ no_list }
        ensures { IfOk result (λ n. IsLabelled table.old table.new (the_way self.old) (the_way self.new) n) }
    {
        match self.label {
            Some(label) => Ok(label),
            None => {
                let label = table.add_marks(&self.marks[self.start..])?;
                self.label = Some(label);
                Ok(label)
            }
        }
    }
}
