//! Comparing cells with patterns of which no cells are built.

ghost use Rattle.std.specs.Prelude.{◌≡◌, ◌<◌, Bool, IfOk, IsTrue, length, map, true};
ghost use Rattle.std.specs.List.{list_all};
ghost use Rattle.calculus.specs.declared.sort.Sort.{Sort};
ghost use Rattle.store_theory.specs.Patterns.{p_var, patterns_tree};
ghost use Rattle.store_theory.specs.Stores.{Solution, Solves, has_value_sort_at, names_below};
ghost use Rattle.term_store.specs.Fitting.{fits_in, parts_fit_in};
ghost use Rattle.term_store.specs.PatternView.{the_pattern};
ghost use Rattle.term_store.specs.RefView.{the_place, the_places};
ghost use Rattle.term_unify.specs.Matching.{ArePartsAt, EachFits, HasParts, HoldsAlways, MatchTo, Matches, StandsBuilt};

use crate::compare::count_in;
use crate::matching::{cell_at, has_name, part_of};
use crate::solve::Unifier;
use cop_base::NoMemory;
use term_store::{Pattern, Patterns, Ref, Store, Variables};

impl Unifier {
    // Whether the bindings make the cell equal to the variable of this number.
    fn is_variable_matched(
        &mut self,
        store: &Store,
        cell: Ref,
        k: u32,
        variables: Variables,
    ) -> Result<bool, NoMemory>
        requires cell { cell.0 < length store.now.store.cells }
        requires fits { (sort : Sort) × IsTrue (fits_in store.now.store (the_places variables) sort (p_var k)) }
        requires values { IsTrue (list_all (has_value_sort_at store.now.store) (the_places variables)) }
        ensures matched { IfOk result (λ same. same ≡ true → HoldsAlways (Matches (the_places variables) cell.0 (p_var k)) store.now.store) }
    {
        let variable = store.variable(variables, k);
        let same = self.are_same(store, cell, variable)?;
        Ok(same)
    }
}

impl Unifier {
    // Whether the bindings make the cell equal to the pattern already.
    #[cycle(is_matched)]
    fn is_matched(
        &mut self,
        store: &Store,
        cell: Ref,
        pattern: &Pattern,
        variables: Variables,
    ) -> Result<bool, NoMemory>
        requires cell { cell.0 < length store.now.store.cells }
        requires fits { (sort : Sort) × IsTrue (fits_in store.now.store (the_places variables) sort (the_pattern pattern.now)) }
        requires values { IsTrue (list_all (has_value_sort_at store.now.store) (the_places variables)) }
        ensures matched { IfOk result (λ same. same ≡ true → HoldsAlways (Matches (the_places variables) cell.0 (the_pattern pattern.now)) store.now.store) }
    {
        match pattern {
            Pattern::Var(k) => self.is_variable_matched(store, cell, *k, variables),
            Pattern::Fun(_, parts) => {
                self.is_built_matched(store, cell, pattern, parts, variables)
            }
            Pattern::Eigen(_, parts) => {
                self.is_built_matched(store, cell, pattern, parts, variables)
            }
            Pattern::New(_, parts) => {
                self.is_built_matched(store, cell, pattern, parts, variables)
            }
        }
    }

    // As `is_matched`, of a pattern with these parts.
    #[cycle(is_matched)]
    fn is_built_matched(
        &mut self,
        store: &Store,
        cell: Ref,
        pattern: &Pattern,
        parts: &Patterns,
        variables: Variables,
    ) -> Result<bool, NoMemory>
        requires cell { cell.0 < length store.now.store.cells }
        requires parts { HasParts (the_pattern pattern.now) parts.now }
        requires fits { (sort : Sort) × IsTrue (fits_in store.now.store (the_places variables) sort (the_pattern pattern.now)) }
        requires values { IsTrue (list_all (has_value_sort_at store.now.store) (the_places variables)) }
        ensures matched { IfOk result (λ same. same ≡ true → HoldsAlways (Matches (the_places variables) cell.0 (the_pattern pattern.now)) store.now.store) }
    {
        let end = store.end(cell);
        if !has_name(end.content, pattern) {
            return Ok(false);
        }
        if count_in(end.content) as usize != parts.items().len() {
            return Ok(false);
        }
        let same = self.are_parts_matched(store, end.place, parts, variables)?;
        Ok(same)
    }

    // Whether the bindings make the parts of the built cell equal to the patterns already.
    #[cycle(is_matched)]
    fn are_parts_matched(
        &mut self,
        store: &Store,
        end: Ref,
        parts: &Patterns,
        variables: Variables,
    ) -> Result<bool, NoMemory>
        requires end { StandsBuilt store.now.store end.0 }
        requires count { ArePartsAt store.now.store end.0 (λ rs. length rs ≡ length parts.now) }
        requires fits { (sort : Sort) × (strings : Bool) × IsTrue (parts_fit_in store.now.store (the_places variables) sort strings (patterns_tree parts.now)) }
        requires values { IsTrue (list_all (has_value_sort_at store.now.store) (the_places variables)) }
        ensures matched { IfOk result (λ same. same ≡ true → ArePartsAt store.now.store end.0 (λ rs. HoldsAlways (MatchTo (the_places variables) rs parts.now (length parts.now)) store.now.store)) }
    {
        let patterns = parts.items();
        for i in 0..patterns.len() {
            let part = part_of(store, end, i);
            if !self.is_matched(store, part, &patterns[i], variables)? {
                return Ok(false);
            }
        }
        Ok(true)
    }

    /// Whether the bindings make each cell equal to the pattern at its place already.
    pub fn are_matched(
        &mut self,
        store: &Store,
        cells: &[Ref],
        patterns: &Patterns,
        variables: Variables,
    ) -> Result<bool, NoMemory>
        requires cells { IsTrue (names_below (length store.now.store.cells) (map the_place cells.now)) }
        requires fits { EachFits store.now.store (the_places variables) patterns.now }
        requires values { IsTrue (list_all (has_value_sort_at store.now.store) (the_places variables)) }
        ensures matched { IfOk result (λ same. same ≡ true → (length (map the_place cells.now) ≡ length patterns.now)
            × ((σ : Solution) → Solves store.now.store σ → MatchTo (the_places variables) (map the_place cells.now) patterns.now (length patterns.now) σ)) }
    {
        let items = patterns.items();
        if cells.len() != items.len() {
            return Ok(false);
        }
        for i in 0..cells.len() {
            if !self.is_matched(store, cell_at(cells, i), &items[i], variables)? {
                return Ok(false);
            }
        }
        Ok(true)
    }
}
