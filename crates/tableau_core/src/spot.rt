//! Where a part of an instance stands: the characters of its label, and the terms put for its
//! variables.

ghost use Rattle.std.specs.Prelude.{◌≡◌, ◌↔◌, IsTrue, map};
ghost use Rattle.formula_core.specs.GroundLists.{the_g_term, the_mark, the_value};
ghost use Rattle.tableau_core.specs.Numbered.SpotView.{the_bound, the_mark_at};

use cop_base::PosId;
use formula_core::{GroundMark, GroundTable, GroundTerm, Value};

/// A character of a label: one of a string, or that of a pi position by the values taken before, the
/// outer one first.
#[derive(Clone, Copy)]
pub enum MarkAt<'a> {
    Given(GroundMark),
    Made(PosId, &'a [Value]),
}

/// What is put for a variable: a gamma term, or the eigenvariable of a delta position by the values
/// taken before.
#[derive(Clone, Copy)]
pub enum Bound<'a> {
    Given(GroundTerm),
    Made(PosId, &'a [Value]),
}

/// Whether both lists have the same values.
#[tactic(auto, using(formula_core::specs::GroundEq::tree_equality, crate::proofs::Places::values_equality))]
pub fn are_same_values(table: &GroundTable, a: &[Value], b: &[Value]) -> bool
    ensures { IsTrue result ↔ (map (the_value table.now) a.now ≡ map (the_value table.now) b.now) }
{
    if a.len() != b.len() {
        return false;
    }
    for i in 0..a.len() {
        let x = &a[i];
        let y = &b[i];
        if !table.is_same_value(*x, *y) {
            return false;
        }
    }
    true
}

impl MarkAt<'_> {
    /// Whether this is the character.
    #[tactic(auto, using(formula_core::specs::GroundEq::tree_equality))]
    pub fn is(&self, table: &GroundTable, mark: GroundMark) -> bool
        ensures { IsTrue result ↔ (the_mark_at table.now self.now ≡ the_mark table.now mark) }
    {
        match (self, mark) {
            (MarkAt::Given(m), _) => table.is_same_mark(*m, mark),
            (MarkAt::Made(p, taken), GroundMark::New(q, values)) => {
                *p == q && are_same_values(table, *taken, table.values(values))
            }
            (MarkAt::Made(_, _), GroundMark::Spare(_)) => false,
        }
    }

    /// Whether both are the same character.
    #[tactic(auto, using(formula_core::specs::GroundEq::tree_equality))]
    pub fn is_same(&self, table: &GroundTable, other: &MarkAt) -> bool
        ensures { IsTrue result ↔ (the_mark_at table.now self.now ≡ the_mark_at table.now other.now) }
    {
        match (self, other) {
            (_, MarkAt::Given(m)) => self.is(table, *m),
            (MarkAt::Given(m), MarkAt::Made(_, _)) => other.is(table, *m),
            (MarkAt::Made(p, taken), MarkAt::Made(q, values)) => {
                p == q && are_same_values(table, *taken, *values)
            }
        }
    }
}

impl Bound<'_> {
    /// Whether this is the term.
    #[tactic(auto, using(formula_core::specs::GroundEq::tree_equality))]
    pub fn is(&self, table: &GroundTable, term: GroundTerm) -> bool
        ensures { IsTrue result ↔ (the_bound table.now self.now ≡ the_g_term table.now term) }
    {
        match (self, term) {
            (Bound::Given(t), _) => table.is_same_term(*t, term),
            (Bound::Made(p, taken), GroundTerm::Eigen(q, values)) => {
                *p == q && are_same_values(table, *taken, table.values(values))
            }
            (Bound::Made(_, _), _) => false,
        }
    }
}

/// Whether the label has these characters.
#[tactic(auto, using(formula_core::specs::GroundEq::tree_equality, crate::proofs::Places::values_equality))]
pub fn is_label(table: &GroundTable, label: &[MarkAt], marks: &[GroundMark]) -> bool
    ensures { IsTrue result ↔ (map (the_mark_at table.now) label.now ≡ map (the_mark table.now) marks.now) }
{
    if label.len() != marks.len() {
        return false;
    }
    for i in 0..label.len() {
        let a = &label[i];
        let b = &marks[i];
        if !a.is(table, *b) {
            return false;
        }
    }
    true
}
