//! Copies of patterns over variables that are in the store.

ghost use Rattle.std.specs.Prelude.{◌≡◌, ◌<◌, ◌+◌, ◌++◌, ℕ, List, Bool, IfOk, IsTrue, OnOk, Some, drop, length, map, nat_le, slice_get};
ghost use Rattle.std.specs.List.{list_all};
ghost use Rattle.calculus.specs.declared.sort.Sort.{Sort};
ghost use Rattle.store_theory.specs.Bindings.{AddsOver, NamesOver};
ghost use Rattle.store_theory.specs.Patterns.{AreCopies, IsCopy, p_var, patterns_tree};
ghost use Rattle.store_theory.specs.Stores.{has_sort_at};
ghost use Rattle.term_store.specs.Copying.{named_pattern};
ghost use Rattle.term_store.specs.Fitting.{fits_in, part_sort_at, parts_fit_in};
ghost use Rattle.term_store.specs.PatternView.{the_pattern};
ghost use Rattle.term_store.specs.RefView.{the_places};
ghost use Rattle.term_store.specs.Room.{KeepsRoom};
ghost use Rattle.term_store.specs.Signatures.{BuildsOver, allows, allows_all};

use crate::cell::{Name, Ref, Variables};
use crate::pattern::{Pattern, Patterns};
use crate::store::Store;
use cop_base::NoMemory;

impl Store {
    /// The variable of this number.
    pub fn variable(&self, variables: Variables, k: u32) -> Ref
        requires { (sort : Sort) × IsTrue (fits_in self.now.store (the_places variables) sort (p_var k)) }
        ensures { slice_get (the_places variables) k ≡ Some result.0 }
    {
        let _cells = self.cells.len();
        Ref(variables.first.0 + k)
    }

    /// A copy of the pattern. `places` is a stack for the parts of the patterns that are being copied. Want of memory
    /// leaves some cells behind, and more on the stack.
    #[cycle(copy_pattern)]
    pub fn copy_pattern(
        &mut self,
        pattern: &Pattern,
        variables: Variables,
        places: &mut Vec<u32>,
    ) -> Result<Ref, NoMemory>
        requires { (sort : Sort) × IsTrue (fits_in self.old.store (the_places variables) sort (the_pattern pattern.now)) }
        ensures copy { IfOk result (λ r. IsCopy self.new.store (the_places variables) (the_pattern pattern.now) r.0) }
        ensures sorts { IfOk result (λ r. (sort : Sort) → IsTrue (fits_in self.old.store (the_places variables) sort (the_pattern pattern.now)) → IsTrue (has_sort_at self.new.store sort r.0)) }
        ensures own { IfOk result (λ r. NamesOver (the_places variables) (length self.old.store.cells) (λ base. nat_le base r.0)) }
        ensures places { OnOk result (places.new.items ≡ places.old.items) }
        ensures adds { AddsOver (the_places variables) self.old.store self.new.store }
        ensures within { OnOk result (BuildsOver (the_places variables) (λ sorts g. allows g sorts (the_pattern pattern.now)) self.old.store self.new.store) }
        ensures room { KeepsRoom self.old self.new }
    {
        match pattern {
            Pattern::Var(k) => Ok(self.variable(variables, *k)),
            Pattern::Fun(f, parts) => self.copy_built(Name::Fun(*f), parts, variables, places),
            Pattern::Eigen(p, parts) => self.copy_built(Name::Eigen(*p), parts, variables, places),
            Pattern::New(p, parts) => self.copy_built(Name::New(*p), parts, variables, places),
        }
    }

    // A built cell with copies of the parts.
    #[cycle(copy_pattern)]
    fn copy_built(
        &mut self,
        name: Name,
        parts: &Patterns,
        variables: Variables,
        places: &mut Vec<u32>,
    ) -> Result<Ref, NoMemory>
        requires name { ¬ (name ≡ Name.Marks) }
        requires fits { (sort : Sort) × IsTrue (fits_in self.old.store (the_places variables) sort (named_pattern name (patterns_tree parts.now))) }
        ensures copy { IfOk result (λ r. IsCopy self.new.store (the_places variables) (named_pattern name (patterns_tree parts.now)) r.0) }
        ensures sorts { IfOk result (λ r. (sort : Sort) → IsTrue (fits_in self.old.store (the_places variables) sort (named_pattern name (patterns_tree parts.now))) → IsTrue (has_sort_at self.new.store sort r.0)) }
        ensures own { IfOk result (λ r. NamesOver (the_places variables) (length self.old.store.cells) (λ base. nat_le base r.0)) }
        ensures places { OnOk result (places.new.items ≡ places.old.items) }
        ensures adds { AddsOver (the_places variables) self.old.store self.new.store }
        ensures within { OnOk result (BuildsOver (the_places variables) (λ sorts g. allows g sorts (named_pattern name (patterns_tree parts.now))) self.old.store self.new.store) }
        ensures room { KeepsRoom self.old self.new }
    {
        let from = places.len();
        self.copy_parts(parts, variables, places)?;
        let built = self.build(name, &places[from..])?;
        places.truncate(from);
        Ok(built)
    }

    // Appends copies of the patterns to the stack.
    #[cycle(copy_pattern)]
    pub(crate) fn copy_parts(
        &mut self,
        parts: &Patterns,
        variables: Variables,
        places: &mut Vec<u32>,
    ) -> Result<(), NoMemory>
        requires { (sort : Sort) × (strings : Bool) × IsTrue (parts_fit_in self.old.store (the_places variables) sort strings (patterns_tree parts.now)) }
        ensures copies { OnOk result ((more : List ℕ) × (places.new.items ≡ places.old.items ++ more) × AreCopies self.new.store (the_places variables) (patterns_tree parts.now) more
            × ((sort : Sort) (strings : Bool) → IsTrue (parts_fit_in self.old.store (the_places variables) sort strings (patterns_tree parts.now)) → IsTrue (list_all (part_sort_at self.new.store sort strings) more))
            × NamesOver (the_places variables) (length self.old.store.cells) (λ base. list_all (nat_le base) more)) }
        ensures adds { AddsOver (the_places variables) self.old.store self.new.store }
        ensures within { OnOk result (BuildsOver (the_places variables) (λ sorts g. allows_all g sorts (patterns_tree parts.now)) self.old.store self.new.store) }
        ensures room { KeepsRoom self.old self.new }
    {
        for part in parts.items() {
            let copied = self.copy_pattern(part, variables, places)?;
            places.push(copied.0)?;
        }
        Ok(())
    }
}
