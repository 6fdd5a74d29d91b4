//! Spots: where a signed formula of the problem stands on a branch.

ghost use Rattle.std.specs.Prelude.{◌≡◌, ◌≤◌, IfOk, ◌+◌, ◌++◌, ◌∷◌, [], List, length, map};
ghost use Rattle.calculus.specs.Ground.{marks_tree};
ghost use Rattle.calculus.specs.Instances.{root_spot, down_by, spot_inside, after_string, after_character};
ghost use Rattle.formula_core.specs.GroundLists.{GroundList, no_list, the_g_term, the_mark, the_values};
ghost use Rattle.sequent_convert.specs.ByNumber.SpotView.{kept_marks, taken_is, the_spot};

use cop_base::{NoMemory, PosId};
use formula_core::{GroundMark, GroundTable, GroundTerm, Values};
use logic_rules::Logic;
use std::alloc::Global;
use std::rc::Rc;

/// The position, its label, the values taken on the way to it and the terms put for the variables, the innermost
/// quantifier's first. What they name are lists of one table. Spots of one branch share labels and terms.
#[derive(Drop)]
pub struct Spot {
    pub position: u32,
    pub label: Rc<Vec<GroundMark>>,
    pub taken: Values,
    pub env: Rc<Vec<GroundTerm>>,
}

// The terms behind another one.
fn with_term(
    alloc: Global,
    term: GroundTerm,
    terms: &[GroundTerm],
) -> Result<Rc<Vec<GroundTerm>>, NoMemory>
    ensures { IfOk result (λ r. r.value.items ≡ term ∷ terms.now) }
{
    let mut more = Vec::new(alloc);
    more.push(term)?;
    more.extend_from_slice(terms)?;
    Ok(Rc::new(alloc, more)?)
}

// The label from which a step of the logic goes on: in S5 that is the root.
fn start(alloc: Global, logic: Logic, label: &[GroundMark]) -> Result<Vec<GroundMark>, NoMemory>
    ensures { IfOk result (λ v. v.items ≡ kept_marks logic label.now) }
{
    let mut all = Vec::new(alloc);
    if logic.keeps_prefix() {
        all.extend_from_slice(label)?;
    }
    Ok(all)
}

impl Spot {
    /// The root.
    pub fn root(alloc: Global) -> Result<Spot, NoMemory>
        ensures spot { IfOk result (λ c. (ls : List GroundList) → length ls ≤ no_list → the_spot ls c ≡ root_spot) }
        ensures position { IfOk result (λ c. c.position ≡ 0) }
    {
        let label = Rc::new(alloc, Vec::new(alloc))?;
        let env = Rc::new(alloc, Vec::new(alloc))?;
        Ok(Spot {
            position: 0,
            label,
            taken: Values(GroundTable::EMPTY),
            env,
        })
    }

    /// The characters of the label.
    pub fn marks(&self) -> &[GroundMark]
        ensures { result.now ≡ self.now.label.value.items }
    {
        self.label.as_ref().as_slice()
    }

    /// The terms put for the variables.
    pub fn terms(&self) -> &[GroundTerm]
        ensures { result.now ≡ self.now.env.value.items }
    {
        self.env.as_ref().as_slice()
    }

    /// The same spot, once these values are taken.
    pub fn taking(&self, taken: Values) -> Result<Spot, NoMemory>
        ensures spot { IfOk result (λ c. (ls : List GroundList) → the_spot ls c ≡ taken_is (the_values ls taken) (the_spot ls self.now)) }
        ensures position { IfOk result (λ c. c.position ≡ self.now.position) }
    {
        Ok(Spot {
            position: self.position,
            label: self.label.clone()?,
            taken,
            env: self.env.clone()?,
        })
    }

    /// The spot of a component n positions further.
    pub fn down_by(&self, n: u32) -> Result<Spot, NoMemory>
        requires { self.now.position + n ≤ 4294967295 }
        ensures spot { IfOk result (λ c. (ls : List GroundList) → the_spot ls c ≡ down_by n (the_spot ls self.now)) }
        ensures position { IfOk result (λ c. c.position ≡ self.now.position + n) }
    {
        Ok(Spot {
            position: self.position + n,
            label: self.label.clone()?,
            taken: self.taken,
            env: self.env.clone()?,
        })
    }

    /// The spot inside a quantifier whose variable gets the term, once what is taken there is taken.
    pub fn inside(&self, alloc: Global, term: GroundTerm) -> Result<Spot, NoMemory>
        requires { self.now.position + 1 ≤ 4294967295 }
        ensures spot { IfOk result (λ c. (ls : List GroundList) → the_spot ls c ≡ spot_inside (the_g_term ls term) (the_spot ls self.now).taken (the_spot ls self.now)) }
        ensures position { IfOk result (λ c. c.position ≡ self.now.position + 1) }
    {
        Ok(Spot {
            position: self.position + 1,
            label: self.label.clone()?,
            taken: self.taken,
            env: with_term(alloc, term, self.terms())?,
        })
    }

    // The label behind these marks.
    fn moved(
        &self,
        alloc: Global,
        logic: Logic,
        marks: &[GroundMark],
    ) -> Result<Rc<Vec<GroundMark>>, NoMemory>
        ensures { IfOk result (λ r. r.value.items ≡ kept_marks logic self.now.label.value.items ++ marks.now) }
    {
        let mut longer = start(alloc, logic, self.marks())?;
        longer.extend_from_slice(marks)?;
        Ok(Rc::new(alloc, longer)?)
    }

    // The spot with this label, once these values are taken.
    fn with_label(&self, label: Rc<Vec<GroundMark>>, taken: Values) -> Result<Spot, NoMemory>
        ensures position { IfOk result (λ c. c.position ≡ self.now.position) }
        ensures spot { IfOk result (λ c. (ls : List GroundList) → the_spot ls c ≡ record { position = self.now.position; label = map (the_mark ls) label.value.items; taken = the_values ls taken; env = map (the_g_term ls) self.now.env.value.items }) }
    {
        Ok(Spot {
            position: self.position,
            label,
            taken,
            env: self.env.clone()?,
        })
    }

    /// The spot after the nu step with the string, once these values are taken.
    pub fn after_string(
        &self,
        alloc: Global,
        logic: Logic,
        string: &[GroundMark],
        taken: Values,
    ) -> Result<Spot, NoMemory>
        ensures position { IfOk result (λ c. c.position ≡ self.now.position) }
        ensures spot { IfOk result (λ c. (ls : List GroundList) → the_spot ls c ≡ taken_is (the_values ls taken) (after_string logic (marks_tree (map (the_mark ls) string.now)) (the_spot ls self.now))) }
    {
        let label = self.moved(alloc, logic, string)?;
        let spot = self.with_label(label, taken)?;
        Ok(spot)
    }

    /// The spot after the pi step, whose character is named by the position and the values taken, once these values are taken.
    pub fn after_character(
        &self,
        alloc: Global,
        logic: Logic,
        taken: Values,
    ) -> Result<Spot, NoMemory>
        ensures position { IfOk result (λ c. c.position ≡ self.now.position) }
        ensures spot { IfOk result (λ c. (ls : List GroundList) → the_spot ls c ≡ taken_is (the_values ls taken) (after_character logic (the_spot ls self.now))) }
    {
        let mark = GroundMark::New(PosId(self.position), self.taken);
        let label = self.moved(alloc, logic, &[mark])?;
        let spot = self.with_label(label, taken)?;
        Ok(spot)
    }
}
