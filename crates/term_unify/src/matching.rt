//! Matching a literal's patterns against cells. A pattern is built only where an unbound variable meets it.

ghost use Rattle.std.specs.Prelude.{◌≡◌, ◌<◌, Bool, IfOk, IsTrue, Some, false, length, map, slice_get, true};
ghost use Rattle.std.specs.List.{list_all};
ghost use Rattle.calculus.specs.declared.sort.Sort.{Sort};
ghost use Rattle.calculus.specs.declared.sort.Sort.TheVariants.{TermSort};
ghost use Rattle.store_theory.specs.Bindings.{IsWellFormed, KeepsMarks};
ghost use Rattle.store_theory.specs.Patterns.{p_var, patterns_tree};
ghost use Rattle.store_theory.specs.Stores.{has_sort_at, has_value_sort_at};
ghost use Rattle.term_store.specs.Fitting.{fits_in, parts_fit_in};
ghost use Rattle.term_store.specs.PatternView.{the_pattern};
ghost use Rattle.term_store.specs.RefView.{the_place, the_places};
ghost use Rattle.term_store.specs.Room.{KeepsRoom};
ghost use Rattle.term_store.specs.Shown.{the_head};
ghost use Rattle.term_store.specs.Signatures.{BuildsOver, allows, allows_all};
ghost use Rattle.term_unify.specs.Closed.{IsClosedBelow};
ghost use Rattle.term_unify.specs.Matching.{AddsAndBinds, AllNamesKept, ArePartsAt, HasParts};
ghost use Rattle.term_unify.specs.Matching.{HoldsNowhere, MatchTo, Matches, NamesKept, Narrows, StandsBuilt, has_head};

use crate::compare::{count_in, is_open, part_in};
use crate::solve::Unifier;
use cop_base::NoMemory;
use term_store::{Content, Pattern, Patterns, Ref, Store, Variables};

// Whether a built cell with this content has the pattern's kind and name.
pub(crate) fn has_name(content: Content, pattern: &Pattern) -> bool
    ensures { result ≡ has_head (the_head content) (the_pattern pattern.now) }
{
    match (content, pattern) {
        (Content::Fun(f, _), Pattern::Fun(g, _)) => f.0 == g.0,
        (Content::Eigen(p, _), Pattern::Eigen(q, _)) => p.0 == q.0,
        (Content::New(p, _), Pattern::New(q, _)) => p.0 == q.0,
        _ => false,
    }
}

// The cell at the place.
pub(crate) fn cell_at(cells: &[Ref], i: usize) -> Ref
    requires { i < length cells.now }
    ensures { slice_get (map the_place cells.now) i ≡ Some result.0 }
{
    cells[i]
}

// The part of this number of a built cell.
pub(crate) fn part_of(store: &Store, end: Ref, i: usize) -> Ref
    requires end { StandsBuilt store.now.store end.0 }
    requires there { ArePartsAt store.now.store end.0 (λ rs. i < length rs) }
    ensures part { ArePartsAt store.now.store end.0 (λ rs. slice_get rs i ≡ Some result.0) }
    ensures within { result.0 < length store.now.store.cells }
{
    part_in(store.parts_at(end), i)
}

impl Unifier {
    // Builds the pattern and binds so that the cell is equal to it.
    fn unify_copy(
        &mut self,
        store: &mut Store,
        below: &mut usize,
        cell: Ref,
        pattern: &Pattern,
        variables: Variables,
    ) -> Result<bool, NoMemory>
        requires cell { cell.0 < length store.old.store.cells }
        requires fits { (sort : Sort) × IsTrue (fits_in store.old.store (the_places variables) sort (the_pattern pattern.now)) }
        requires values { IsTrue (list_all (has_value_sort_at store.old.store) (the_places variables)) }
        requires closed { IsClosedBelow below.old store.old.store }
        ensures met { IfOk result (λ equal. equal ≡ true → Narrows (Matches (the_places variables) cell.0 (the_pattern pattern.now)) store.old.store store.new.store) }
        ensures apart { IfOk result (λ equal. equal ≡ false → HoldsNowhere (Matches (the_places variables) cell.0 (the_pattern pattern.now)) store.old.store) }
        ensures within { IfOk result (λ equal. equal ≡ true → BuildsOver (the_places variables) (λ sorts g. allows g sorts (the_pattern pattern.now)) store.old.store store.new.store) }
        ensures closed { IfOk result (λ equal. equal ≡ true → IsClosedBelow below.new store.new.store) }
        ensures cells { AddsAndBinds store.old.store store.new.store }
        ensures names { NamesKept (the_places variables) cell.0 store.old.store store.new.store }
        ensures marks { KeepsMarks store.old.store store.new.store }
        ensures room { KeepsRoom store.old store.new }
    {
        let copy = store.copy_pattern(pattern, variables, &mut self.stack)?;
        let equal = self.unify_below(store, below, cell, copy)?;
        Ok(equal)
    }
}

impl Unifier {
    // Matches the variable of this number against the cell.
    fn match_variable(
        &mut self,
        store: &mut Store,
        below: &mut usize,
        cell: Ref,
        k: u32,
        variables: Variables,
    ) -> Result<bool, NoMemory>
        requires cell { cell.0 < length store.old.store.cells }
        requires fits { (sort : Sort) × IsTrue (fits_in store.old.store (the_places variables) sort (p_var k)) }
        requires values { IsTrue (list_all (has_value_sort_at store.old.store) (the_places variables)) }
        requires closed { IsClosedBelow below.old store.old.store }
        ensures met { IfOk result (λ equal. equal ≡ true → Narrows (Matches (the_places variables) cell.0 (p_var k)) store.old.store store.new.store) }
        ensures apart { IfOk result (λ equal. equal ≡ false → HoldsNowhere (Matches (the_places variables) cell.0 (p_var k)) store.old.store) }
        ensures within { IfOk result (λ equal. equal ≡ true → BuildsOver (the_places variables) (λ sorts g. allows g sorts (p_var k)) store.old.store store.new.store) }
        ensures closed { IfOk result (λ equal. equal ≡ true → IsClosedBelow below.new store.new.store) }
        ensures cells { AddsAndBinds store.old.store store.new.store }
        ensures names { NamesKept (the_places variables) cell.0 store.old.store store.new.store }
        ensures marks { KeepsMarks store.old.store store.new.store }
        ensures room { KeepsRoom store.old store.new }
    {
        let variable = store.variable(variables, k);
        let equal = self.unify_newer(store, below, cell, variable)?;
        Ok(equal)
    }
}

impl Unifier {
    // Matches the pattern against the cell. Where they cannot be equal, some bindings may be left.
    #[cycle(match_pattern)]
    fn match_pattern(
        &mut self,
        store: &mut Store,
        below: &mut usize,
        cell: Ref,
        pattern: &Pattern,
        variables: Variables,
    ) -> Result<bool, NoMemory>
        requires cell { cell.0 < length store.old.store.cells }
        requires fits { (sort : Sort) × IsTrue (fits_in store.old.store (the_places variables) sort (the_pattern pattern.now)) }
        requires values { IsTrue (list_all (has_value_sort_at store.old.store) (the_places variables)) }
        requires closed { IsClosedBelow below.old store.old.store }
        ensures met { IfOk result (λ equal. equal ≡ true → Narrows (Matches (the_places variables) cell.0 (the_pattern pattern.now)) store.old.store store.new.store) }
        ensures apart { IfOk result (λ equal. equal ≡ false → HoldsNowhere (Matches (the_places variables) cell.0 (the_pattern pattern.now)) store.old.store) }
        ensures within { IfOk result (λ equal. equal ≡ true → BuildsOver (the_places variables) (λ sorts g. allows g sorts (the_pattern pattern.now)) store.old.store store.new.store) }
        ensures closed { IfOk result (λ equal. equal ≡ true → IsClosedBelow below.new store.new.store) }
        ensures cells { AddsAndBinds store.old.store store.new.store }
        ensures names { NamesKept (the_places variables) cell.0 store.old.store store.new.store }
        ensures marks { KeepsMarks store.old.store store.new.store }
        ensures room { KeepsRoom store.old store.new }
    {
        match pattern {
            Pattern::Var(k) => self.match_variable(store, below, cell, *k, variables),
            Pattern::Fun(_, parts) => {
                self.match_built(store, below, cell, pattern, parts, variables)
            }
            Pattern::Eigen(_, parts) => {
                self.match_built(store, below, cell, pattern, parts, variables)
            }
            Pattern::New(_, parts) => {
                self.match_built(store, below, cell, pattern, parts, variables)
            }
        }
    }

    // As `match_pattern`, of a pattern with these parts.
    #[cycle(match_pattern)]
    fn match_built(
        &mut self,
        store: &mut Store,
        below: &mut usize,
        cell: Ref,
        pattern: &Pattern,
        parts: &Patterns,
        variables: Variables,
    ) -> Result<bool, NoMemory>
        requires cell { cell.0 < length store.old.store.cells }
        requires parts { HasParts (the_pattern pattern.now) parts.now }
        requires fits { (sort : Sort) × IsTrue (fits_in store.old.store (the_places variables) sort (the_pattern pattern.now)) }
        requires values { IsTrue (list_all (has_value_sort_at store.old.store) (the_places variables)) }
        requires closed { IsClosedBelow below.old store.old.store }
        ensures met { IfOk result (λ equal. equal ≡ true → Narrows (Matches (the_places variables) cell.0 (the_pattern pattern.now)) store.old.store store.new.store) }
        ensures apart { IfOk result (λ equal. equal ≡ false → HoldsNowhere (Matches (the_places variables) cell.0 (the_pattern pattern.now)) store.old.store) }
        ensures within { IfOk result (λ equal. equal ≡ true → BuildsOver (the_places variables) (λ sorts g. allows g sorts (the_pattern pattern.now)) store.old.store store.new.store) }
        ensures closed { IfOk result (λ equal. equal ≡ true → IsClosedBelow below.new store.new.store) }
        ensures cells { AddsAndBinds store.old.store store.new.store }
        ensures names { NamesKept (the_places variables) cell.0 store.old.store store.new.store }
        ensures marks { KeepsMarks store.old.store store.new.store }
        ensures room { KeepsRoom store.old store.new }
    {
        let end = store.end(cell);
        if is_open(end.content) {
            let equal = self.unify_copy(store, below, cell, pattern, variables)?;
            return Ok(equal);
        }
        if !has_name(end.content, pattern) {
            return Ok(false);
        }
        if count_in(end.content) as usize != parts.items().len() {
            return Ok(false);
        }
        let equal = self.match_parts(store, below, end.place, parts, variables)?;
        Ok(equal)
    }

    // Matches the patterns against the parts of the built cell.
    #[cycle(match_pattern)]
    fn match_parts(
        &mut self,
        store: &mut Store,
        below: &mut usize,
        end: Ref,
        parts: &Patterns,
        variables: Variables,
    ) -> Result<bool, NoMemory>
        requires well { IsWellFormed store.old.store }
        requires end { StandsBuilt store.old.store end.0 }
        requires count { ArePartsAt store.old.store end.0 (λ rs. length rs ≡ length parts.now) }
        requires fits { (sort : Sort) × (strings : Bool) × IsTrue (parts_fit_in store.old.store (the_places variables) sort strings (patterns_tree parts.now)) }
        requires values { IsTrue (list_all (has_value_sort_at store.old.store) (the_places variables)) }
        requires closed { IsClosedBelow below.old store.old.store }
        ensures met { IfOk result (λ equal. equal ≡ true → ArePartsAt store.old.store end.0 (λ rs. Narrows (MatchTo (the_places variables) rs parts.now (length parts.now)) store.old.store store.new.store)) }
        ensures apart { IfOk result (λ equal. equal ≡ false → ArePartsAt store.old.store end.0 (λ rs. HoldsNowhere (MatchTo (the_places variables) rs parts.now (length parts.now)) store.old.store)) }
        ensures within { IfOk result (λ equal. equal ≡ true → BuildsOver (the_places variables) (λ sorts g. allows_all g sorts (patterns_tree parts.now)) store.old.store store.new.store) }
        ensures closed { IfOk result (λ equal. equal ≡ true → IsClosedBelow below.new store.new.store) }
        ensures cells { AddsAndBinds store.old.store store.new.store }
        ensures names { NamesKept (the_places variables) end.0 store.old.store store.new.store }
        ensures marks { KeepsMarks store.old.store store.new.store }
        ensures room { KeepsRoom store.old store.new }
    {
        let patterns = parts.items();
        for i in 0..patterns.len() {
            let part = part_of(store, end, i);
            if !self.match_pattern(store, below, part, &patterns[i], variables)? {
                return Ok(false);
            }
        }
        Ok(true)
    }

    /// Matches the patterns, which are not built, against the cells: binds variables, those of the patterns and others,
    /// so that each cell is equal to the pattern at its place. A pattern is copied where an unbound variable meets one with
    /// parts. The answer is true exactly where some ground solution of the store makes them equal, and then the solutions
    /// of the new store are those. Where they cannot be equal, some bindings may be left. Cells whose numbers are below
    /// `below` name such cells alone, and so a variable with a greater number is bound to one of them without a look for it.
    pub fn match_all(
        &mut self,
        store: &mut Store,
        below: usize,
        cells: &[Ref],
        patterns: &Patterns,
        variables: Variables,
    ) -> Result<bool, NoMemory>
        requires sorted { IsTrue (list_all (has_sort_at store.old.store TermSort) (map the_place cells.now)) }
        requires fits { (sort : Sort) × (strings : Bool) × IsTrue (parts_fit_in store.old.store (the_places variables) sort strings (patterns_tree patterns.now)) }
        requires values { IsTrue (list_all (has_value_sort_at store.old.store) (the_places variables)) }
        requires closed { IsClosedBelow below store.old.store }
        ensures met { IfOk result (λ equal. equal ≡ true → Narrows (λ σ. (length (map the_place cells.now) ≡ length patterns.now) × MatchTo (the_places variables) (map the_place cells.now) patterns.now (length patterns.now) σ) store.old.store store.new.store) }
        ensures apart { IfOk result (λ equal. equal ≡ false → HoldsNowhere (λ σ. (length (map the_place cells.now) ≡ length patterns.now) × MatchTo (the_places variables) (map the_place cells.now) patterns.now (length patterns.now) σ) store.old.store) }
        ensures within { IfOk result (λ equal. equal ≡ true → BuildsOver (the_places variables) (λ sorts g. allows_all g sorts (patterns_tree patterns.now)) store.old.store store.new.store) }
        ensures cells { AddsAndBinds store.old.store store.new.store }
        ensures names { AllNamesKept (the_places variables) (map the_place cells.now) store.old.store store.new.store }
        ensures marks { KeepsMarks store.old.store store.new.store }
        ensures room { KeepsRoom store.old store.new }
    {
        let _start = store.mark();
        let items = patterns.items();
        if cells.len() != items.len() {
            return Ok(false);
        }
        let mut closed = below;
        for i in 0..cells.len() {
            if !self.match_pattern(store, &mut closed, cell_at(cells, i), &items[i], variables)? {
                return Ok(false);
            }
        }
        Ok(true)
    }
}
