//! What was passed on the way to a signed formula.

ghost use Rattle.std.specs.Prelude.{◌≡◌, ℕ, IfOk, ◌+◌};
ghost use Rattle.store_theory.specs.Patterns.{p_eigen, p_var, patterns_tree};
ghost use Rattle.search_theory.specs.TemplateOf.{pattern_inside, root_pattern_spot};
ghost use Rattle.matrix_build.specs.WayView.{nu_spot, pi_spot, spot_at, taken_with};
ghost use Rattle.calculus.specs.Labels.{pi_label};
ghost use Rattle.term_store.specs.PatternView.{the_pattern};

use crate::pattern::{followed, led};
use cop_base::{NoMemory, PosId};
use logic_rules::Logic;
use std::alloc::Global;
use term_store::{Pattern, Patterns};

/// The label that is reached, the variables that were taken, and the patterns of the bound
/// variables, the innermost first.
#[derive(Drop)]
pub(crate) struct Way {
    pub label: Patterns,
    pub taken: Patterns,
    pub env: Patterns,
}

// The label with one item more. In S5 that is the item alone.
fn label_with(
    alloc: Global,
    logic: Logic,
    label: &Patterns,
    item: Pattern,
) -> Result<Patterns, NoMemory>
    ensures { IfOk result (λ ps. ps ≡ pi_label logic label.now (the_pattern item)) }
{
    match logic {
        Logic::S5 => {
            let mut after = Patterns::new(alloc);
            after.push(item)?;
            Ok(after)
        }
        Logic::Classical | Logic::Intuitionistic | Logic::D | Logic::T | Logic::S4 => {
            let after = followed(alloc, label, item)?;
            Ok(after)
        }
    }
}

impl Way {
    /// The way to the root.
    pub fn root(alloc: Global) -> Way
        ensures { spot_at 0 result ≡ root_pattern_spot }
    {
        Way {
            label: Patterns::new(alloc),
            taken: Patterns::new(alloc),
            env: Patterns::new(alloc),
        }
    }

    /// A nu step with the string variable `n`.
    pub fn after_nu(&self, alloc: Global, logic: Logic, n: u32) -> Result<Way, NoMemory>
        ensures { IfOk result (λ w. (p : ℕ) → spot_at p w ≡ nu_spot logic n (spot_at p self.now)) }
    {
        let label = label_with(alloc, logic, &self.label, Pattern::Var(n))?;
        let taken = followed(alloc, &self.taken, Pattern::Var(n))?;
        let env = self.env.shared()?;
        Ok(Way { label, taken, env })
    }

    /// A pi step at this position.
    pub fn after_pi(&self, alloc: Global, logic: Logic, at: u32) -> Result<Way, NoMemory>
        ensures { IfOk result (λ w. spot_at at w ≡ pi_spot logic (spot_at at self.now)) }
    {
        let mark = Pattern::New(PosId(at), self.taken.shared()?);
        let label = label_with(alloc, logic, &self.label, mark)?;
        let taken = self.taken.shared()?;
        let env = self.env.shared()?;
        Ok(Way { label, taken, env })
    }

    /// Inside a gamma formula with the term variable `n`.
    pub fn inside_gamma(&self, alloc: Global, n: u32) -> Result<Way, NoMemory>
        ensures { IfOk result (λ w. (p q : ℕ) → q ≡ p + 1 → spot_at q w
            ≡ pattern_inside (p_var n) (taken_with n self.now) (spot_at p self.now)) }
    {
        let label = self.label.shared()?;
        let taken = followed(alloc, &self.taken, Pattern::Var(n))?;
        let env = led(alloc, Pattern::Var(n), &self.env)?;
        Ok(Way { label, taken, env })
    }

    /// Inside the delta formula at this position, whose variable is the eigenvariable of the
    /// variables that were taken.
    pub fn inside_delta(&self, alloc: Global, at: u32) -> Result<Way, NoMemory>
        ensures { IfOk result (λ w. (q : ℕ) → q ≡ at + 1 → spot_at q w
            ≡ pattern_inside (p_eigen at (patterns_tree self.now.taken)) self.now.taken
            (spot_at at self.now)) }
    {
        let eigen = Pattern::Eigen(PosId(at), self.taken.shared()?);
        let label = self.label.shared()?;
        let taken = self.taken.shared()?;
        let env = led(alloc, eigen, &self.env)?;
        Ok(Way { label, taken, env })
    }
}
