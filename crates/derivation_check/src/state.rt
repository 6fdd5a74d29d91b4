//! The state of a judgement between two steps.

ghost use Rattle.std.specs.Prelude.{◌≡◌, ◌<◌, ◌∷◌, [], true, IfOk, OnOk, length, map};
ghost use Rattle.calculus.specs.Derivations as derivation;
ghost use Rattle.calculus.specs.Derivations.{first_sequent};
ghost use Rattle.calculus.specs.Versions.{stated};
ghost use Rattle.derivation_check.specs.ArgumentView.{ArePlaces};
ghost use Rattle.derivation_check.specs.OpenSequents.{IsNested, waiting_in};
ghost use Rattle.derivation_check.specs.NamesTold.{AreNamed};
ghost use Rattle.derivation_check.specs.TermsPut.{ArePut};
ghost use Rattle.derivation_check.specs.StateView.{IsLater, IsKept, the_sequent, the_sequents};

use crate::homes::Homes;
use crate::label_places::add_labels;
use crate::open_sequents::{BranchEntry, OpenSequents};
use crate::term_names::{TermNames, all_names};
use crate::term_places::put_terms;
use crate::told_on_branch::ToldOnBranch;
use cop_base::NoMemory;
use derivation_branch::{NumberSet, Outline, SameAtoms, SharedEntry, Substitutions};
use derivation_text::{TermList, TextDerivation};
use formula_core::Sign;
use label_table::Labels;
use logic_rules::Problem;
use std::alloc::Global;

/// The open sequents, over tables that grow with the steps, and what occurs in the current one.
#[derive(Drop)]
pub struct State<'a> {
    pub outline: Outline,
    pub sequents: OpenSequents<'a>,
    pub substitutions: Substitutions<'a>,
    pub labels: Labels,
    pub homes: Homes,
    /// What is told of the names of the terms.
    pub named: Vec<TermNames>,
    /// The eigenvariables that stand in formulas of the current sequent.
    pub eigens: NumberSet,
    /// The marks of pi steps that stand in its labels, or in the homes of names in its formulas.
    pub marks: NumberSet,
    /// Labels of steps and of homes whose marks are all among these.
    pub told: ToldOnBranch,
    /// The pairs of entries that closed a sequent, which may close others.
    pub same: SameAtoms,
}

impl<'a> State<'a> {
    /// The problem's formula, to be shown at the root, with the names of a derivation, and the places
    /// of its labels by their numbers.
    pub fn new(
        alloc: Global,
        problem: &'a Problem,
        d: &TextDerivation,
    ) -> Result<(State<'a>, Vec<u32>), NoMemory>
        ensures kept { IfOk result (λ r. IsKept (stated d.now).names r.0) }
        ensures first { IfOk result (λ r. the_sequents r.0 ≡ first_sequent problem.now ∷ []) }
        ensures places { IfOk result (λ r. ArePlaces d.now.labels r.0.labels r.1.items) }
        ensures named { IfOk result (λ r. AreNamed r.0.homes d.now.terms r.0.named.items) }
        ensures some { IfOk result (λ r. 0 < length r.0.substitutions) }
    {
        let formula = problem.formula();
        let outline = Outline::new(alloc, formula)?;
        let node = outline.whole()?;
        let shared = SharedEntry {
            sign: Sign::F,
            node,
            formula,
            substitution: 0,
            label: 0,
        };
        let first = BranchEntry {
            shared,
            eigens: 0,
            marks: 0,
        };
        let sequents = OpenSequents::new(alloc, first)?;
        let substitutions = Substitutions::new(alloc);
        let mut labels = Labels::new(alloc);
        let places = add_labels(alloc, &mut labels, d.labels())?;
        let homes = Homes::new(alloc, places.as_slice(), d)?;
        let named = all_names(alloc, &homes, d.terms())?;
        let eigens = NumberSet::new(alloc);
        let marks = NumberSet::new(alloc);
        let told = ToldOnBranch::new(alloc);
        let same = SameAtoms::new(alloc);
        let state = State {
            outline,
            sequents,
            substitutions,
            labels,
            homes,
            named,
            eigens,
            marks,
            told,
            same,
        };
        Ok((state, places))
    }

    /// Puts each large term of the derivation into the table of substitutions once. The answer is
    /// their places by their numbers less one.
    pub fn put_terms(&mut self, alloc: Global, terms: &'a TermList) -> Result<Vec<u32>, NoMemory>
        requires some { 0 < length self.old.substitutions }
        requires named { AreNamed self.old.homes terms.now self.old.named.items }
        ensures put { IfOk result
            (λ places. ArePut self.new.substitutions terms.entry.now places.items) }
        ensures kept { OnOk result ((names : derivation.Names)
            → IsKept names self.old → IsKept names self.new) }
        ensures shown { OnOk result ((names : derivation.Names)
            → IsKept names self.old → the_sequents self.new ≡ the_sequents self.old) }
        ensures labels { OnOk result (self.new.labels ≡ self.old.labels) }
        ensures named { OnOk result (IsLater self.old self.new) }
    {
        let substitutions = &mut self.substitutions;
        let places = put_terms(alloc, substitutions, self.named.as_slice(), terms)?;
        Ok(places)
    }

    /// Closes the current sequent, and goes on with the one that waited last.
    pub fn close(&mut self) -> Result<(), NoMemory>
        requires is_open { self.old.sequents.is_open ≡ true }
        requires nested { IsNested self.old.sequents }
        ensures kept { OnOk result ((names : derivation.Names)
            → IsKept names self.old → IsKept names self.new) }
        ensures closed { OnOk result (the_sequents self.new
            ≡ map (the_sequent self.old.substitutions self.old.labels) (waiting_in self.old.sequents)) }
        ensures labels { OnOk result (self.new.labels ≡ self.old.labels) }
        ensures named { OnOk result (IsLater self.old self.new) }
    {
        let next = self.sequents.close()?;
        match next {
            Some(last) => {
                self.eigens.cut(last.eigens);
                self.marks.cut(last.marks);
                self.told.cut(last.marks);
                Ok(())
            }
            None => Ok(()),
        }
    }
}
