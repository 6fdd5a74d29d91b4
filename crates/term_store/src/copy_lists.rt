//! Copies of the lists of a clause, over variables that are in the store.

ghost use Rattle.std.specs.Prelude.{◌≡◌, ◌+◌, ◌++◌, Bool, IfOk, IsTrue, OnOk, length, map, nat_le};
ghost use Rattle.std.specs.List.{list_all};
ghost use Rattle.calculus.specs.declared.sort.Sort.{Sort};
ghost use Rattle.store_theory.specs.Bindings.{AddsOver, NamesOver};
ghost use Rattle.store_theory.specs.Patterns.{AreCopies, AreGammaCopies, IsAtomCopy, IsGammaCopy, atom_is_from, gamma_is_from, patterns_tree};
ghost use Rattle.store_theory.specs.Systems.{is_cell_atom, is_gamma_cell};
ghost use Rattle.term_store.specs.ClauseView.{the_atom, the_gamma, the_pattern_atom, the_pattern_gamma};
ghost use Rattle.term_store.specs.Copying.{AtomsCopied};
ghost use Rattle.term_store.specs.Fitting.{atom_fits_in, gamma_fits_in, part_sort_at, parts_fit_in};
ghost use Rattle.term_store.specs.RefView.{the_places};
ghost use Rattle.term_store.specs.Room.{KeepsRoom};
ghost use Rattle.term_store.specs.Signatures.{BuildsOver, allows_all, allows_atom, allows_gamma};

use crate::cell::Variables;
use crate::clause::{
    CellAtom, CellAtomList, GammaList, GammaUse, PatternAtom, PatternGamma, PatternGammaList,
    RefList,
};
use crate::pattern::Patterns;
use crate::store::Store;
use cop_base::NoMemory;

impl Store {
    // Copies of the patterns; `places` is a stack for the parts of the patterns that are being
    // copied. Most lists are empty: they get no memory, and no loop.
    pub(crate) fn copy_refs(
        &mut self,
        patterns: &Patterns,
        variables: Variables,
        places: &mut Vec<u32>,
    ) -> Result<RefList, NoMemory>
        requires { (sort : Sort) × (strings : Bool) × IsTrue (parts_fit_in self.old.store (the_places variables) sort strings (patterns_tree patterns.now)) }
        ensures copies { IfOk result (λ refs. AreCopies self.new.store (the_places variables) (patterns_tree patterns.now) refs) }
        ensures sorts { IfOk result (λ refs. (sort : Sort) (strings : Bool) → IsTrue (parts_fit_in self.old.store (the_places variables) sort strings (patterns_tree patterns.now)) → IsTrue (list_all (part_sort_at self.new.store sort strings) refs)) }
        ensures own { IfOk result (λ refs. NamesOver (the_places variables) (length self.old.store.cells) (λ base. list_all (nat_le base) refs)) }
        ensures adds { AddsOver (the_places variables) self.old.store self.new.store }
        ensures within { OnOk result (BuildsOver (the_places variables) (λ sorts g. allows_all g sorts (patterns_tree patterns.now)) self.old.store self.new.store) }
        ensures room { KeepsRoom self.old self.new }
    {
        let count = patterns.items().len();
        if count == 0 {
            return Ok(RefList::new(self.alloc));
        }
        self.copy_all_refs(patterns, variables, places)
    }

    // As `copy_refs`.
    fn copy_all_refs(
        &mut self,
        patterns: &Patterns,
        variables: Variables,
        places: &mut Vec<u32>,
    ) -> Result<RefList, NoMemory>
        requires { (sort : Sort) × (strings : Bool) × IsTrue (parts_fit_in self.old.store (the_places variables) sort strings (patterns_tree patterns.now)) }
        ensures copies { IfOk result (λ refs. AreCopies self.new.store (the_places variables) (patterns_tree patterns.now) refs) }
        ensures sorts { IfOk result (λ refs. (sort : Sort) (strings : Bool) → IsTrue (parts_fit_in self.old.store (the_places variables) sort strings (patterns_tree patterns.now)) → IsTrue (list_all (part_sort_at self.new.store sort strings) refs)) }
        ensures own { IfOk result (λ refs. NamesOver (the_places variables) (length self.old.store.cells) (λ base. list_all (nat_le base) refs)) }
        ensures adds { AddsOver (the_places variables) self.old.store self.new.store }
        ensures within { OnOk result (BuildsOver (the_places variables) (λ sorts g. allows_all g sorts (patterns_tree patterns.now)) self.old.store self.new.store) }
        ensures room { KeepsRoom self.old self.new }
    {
        let count = patterns.items().len();
        let mut refs = self.empty_refs(count)?;
        for part in patterns.items() {
            let copied = self.copy_pattern(part, variables, places)?;
            refs.push(copied)?;
        }
        Ok(refs)
    }

    pub(crate) fn copy_atom(
        &mut self,
        atom: &PatternAtom,
        variables: Variables,
        places: &mut Vec<u32>,
    ) -> Result<CellAtom, NoMemory>
        requires { IsTrue (atom_fits_in self.old.store (the_places variables) (the_pattern_atom atom.now)) }
        ensures copy { IfOk result (λ a. IsAtomCopy self.new.store (the_places variables) (the_pattern_atom atom.now) (the_atom a)) }
        ensures sorts { IfOk result (λ a. IsTrue (is_cell_atom self.new.store (the_atom a))) }
        ensures own { IfOk result (λ a. NamesOver (the_places variables) (length self.old.store.cells) (λ base. atom_is_from base (the_atom a))) }
        ensures adds { AddsOver (the_places variables) self.old.store self.new.store }
        ensures within { OnOk result (BuildsOver (the_places variables) (λ sorts g. allows_atom g sorts (the_pattern_atom atom.now)) self.old.store self.new.store) }
        ensures room { KeepsRoom self.old self.new }
    {
        let args = self.copy_all_refs(&atom.args, variables, places)?;
        let label = self.copy_refs(&atom.label, variables, places)?;
        Ok(CellAtom {
            sign: atom.sign,
            symbol: atom.symbol,
            args,
            label,
        })
    }

    fn copy_gamma(
        &mut self,
        gamma: &PatternGamma,
        variables: Variables,
        places: &mut Vec<u32>,
    ) -> Result<GammaUse, NoMemory>
        requires { IsTrue (gamma_fits_in self.old.store (the_places variables) (the_pattern_gamma gamma.now)) }
        ensures copy { IfOk result (λ g. IsGammaCopy self.new.store (the_places variables) (the_pattern_gamma gamma.now) (the_gamma g)) }
        ensures sorts { IfOk result (λ g. IsTrue (is_gamma_cell self.new.store (the_gamma g))) }
        ensures own { IfOk result (λ g. NamesOver (the_places variables) (length self.old.store.cells) (λ base. gamma_is_from base (the_gamma g))) }
        ensures adds { AddsOver (the_places variables) self.old.store self.new.store }
        ensures within { OnOk result (BuildsOver (the_places variables) (λ sorts g. allows_gamma g sorts (the_pattern_gamma gamma.now)) self.old.store self.new.store) }
        ensures room { KeepsRoom self.old self.new }
    {
        let term = self.copy_pattern(&gamma.term, variables, places)?;
        let label = self.copy_refs(&gamma.label, variables, places)?;
        Ok(GammaUse { term, label })
    }

    // Appends copies of the atoms.
    pub(crate) fn copy_atoms(
        &mut self,
        atoms: &[PatternAtom],
        variables: Variables,
        places: &mut Vec<u32>,
        copied: &mut CellAtomList,
    ) -> Result<(), NoMemory>
        requires { IsTrue (list_all (atom_fits_in self.old.store (the_places variables)) (map the_pattern_atom atoms.now)) }
        ensures copies { OnOk result (AtomsCopied self.new.store (the_places variables) (length self.old.store.cells) copied.old copied.new (map the_pattern_atom atoms.now)) }
        ensures adds { AddsOver (the_places variables) self.old.store self.new.store }
        ensures within { OnOk result (BuildsOver (the_places variables) (λ sorts g. list_all (allows_atom g sorts) (map the_pattern_atom atoms.now)) self.old.store self.new.store) }
        ensures room { KeepsRoom self.old self.new }
    {
        for atom in atoms {
            let copy = self.copy_atom(atom, variables, places)?;
            copied.push(copy)?;
        }
        Ok(())
    }

    pub(crate) fn copy_gammas(
        &mut self,
        gammas: &PatternGammaList,
        variables: Variables,
        places: &mut Vec<u32>,
    ) -> Result<GammaList, NoMemory>
        requires { IsTrue (list_all (gamma_fits_in self.old.store (the_places variables)) gammas.now) }
        ensures copies { IfOk result (λ cs. AreGammaCopies self.new.store (the_places variables) gammas.now cs) }
        ensures sorts { IfOk result (λ cs. IsTrue (list_all (is_gamma_cell self.new.store) cs)) }
        ensures own { IfOk result (λ cs. NamesOver (the_places variables) (length self.old.store.cells) (λ base. list_all (gamma_is_from base) cs)) }
        ensures adds { AddsOver (the_places variables) self.old.store self.new.store }
        ensures within { OnOk result (BuildsOver (the_places variables) (λ sorts g. list_all (allows_gamma g sorts) gammas.now) self.old.store self.new.store) }
        ensures room { KeepsRoom self.old self.new }
    {
        let mut copied = self.empty_gammas(gammas.items().len())?;
        for gamma in gammas.items() {
            let copy = self.copy_gamma(gamma, variables, places)?;
            copied.push(copy)?;
        }
        Ok(copied)
    }
}
