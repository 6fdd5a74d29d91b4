//! Where the literals of a branch stand.

use crate::done::{number_at, put_number};
use crate::spot::Spot;
use cop_base::{NoMemory, SymbolId};
use formula_core::{GroundTable, GroundTerm, GroundTerms, Sign, Term, Terms};
use indexmap::IndexSet;
use std::alloc::Global;

// The literal of a node: the number of its atom at its label, and its sign.
#[derive(Clone, Copy)]
struct Literal {
    atom: usize,
    sign: Sign,
}

/// A table of the literals of a branch. What it answers is a hint alone, which its callers check.
#[derive(Drop)]
pub struct Literals {
    // Begins with that of the names, and has the arguments and labels of atoms besides.
    table: GroundTable,
    // The symbol, and the numbers of the arguments and of the label.
    atoms: IndexSet<(u32, u32, u32)>,
    nodes: Vec<Option<Literal>>,
    // The number of the first T node and of the first F node of each atom. One may be stale, as truncation leaves them alone.
    given: Vec<usize>,
    shown: Vec<usize>,
}

// What stands for a variable.
fn bound(env: &[GroundTerm], k: u32) -> GroundTerm {
    match env.get(k as usize) {
        Some(term) => *term,
        None => GroundTerm::Common(0),
    }
}

#[cycle(numbers)]
fn put_term(
    alloc: Global,
    table: &mut GroundTable,
    env: &[GroundTerm],
    term: &Term,
) -> Result<GroundTerm, NoMemory> {
    match term {
        Term::Var(k) => Ok(bound(env, *k)),
        Term::Fun(f, arguments) => {
            let list = put_terms(alloc, table, env, arguments)?;
            Ok(GroundTerm::Fun(*f, list))
        }
        Term::Eigen(_) | Term::Spare(_) => Ok(GroundTerm::Common(0)),
    }
}

// The number of the terms under what is put for their variables.
#[cycle(numbers)]
#[tactic(auto, using(formula_core::specs::TermFalls::falling))]
fn put_terms(
    alloc: Global,
    table: &mut GroundTable,
    env: &[GroundTerm],
    terms: &Terms,
) -> Result<GroundTerms, NoMemory> {
    let mut all = Vec::new(alloc);
    for term in terms.items() {
        all.push(put_term(alloc, table, env, term)?)?;
    }
    table.add_terms(all.as_slice())
}

impl Literals {
    /// No literals, over a table that begins with that of the names.
    pub fn new(alloc: Global, table: GroundTable) -> Literals {
        Literals {
            table,
            atoms: IndexSet::new(alloc),
            nodes: Vec::new(alloc),
            given: Vec::new(alloc),
            shown: Vec::new(alloc),
        }
    }

    // The place of the first node of the literal.
    fn find(&self, sign: Sign, atom: usize) -> Option<usize> {
        let number = match sign {
            Sign::T => number_at(&self.given, atom),
            Sign::F => number_at(&self.shown, atom),
        };
        if number == 0 || number > self.nodes.len() {
            return None;
        }
        match self.nodes[number - 1] {
            Some(literal) => {
                if literal.atom == atom && literal.sign == sign {
                    Some(number - 1)
                } else {
                    None
                }
            }
            None => None,
        }
    }

    fn put(&mut self, sign: Sign, atom: usize) -> Result<(), NoMemory> {
        let number = self.nodes.len() + 1;
        match sign {
            Sign::T => put_number(&mut self.given, atom, number),
            Sign::F => put_number(&mut self.shown, atom, number),
        }
    }

    // The number of an atom at its label.
    fn atom(
        &mut self,
        alloc: Global,
        spot: &Spot,
        symbol: SymbolId,
        arguments: &Terms,
    ) -> Result<usize, NoMemory> {
        let list = put_terms(
            alloc,
            &mut self.table,
            spot.env.as_ref().as_slice(),
            arguments,
        )?;
        let label = self.table.add_marks(spot.label.as_ref().as_slice())?;
        let (atom, _) = self.atoms.insert_full((symbol.0, list.0, label.0))?;
        Ok(atom)
    }

    /// Notes that the next node is no atom.
    pub fn add_other(&mut self) -> Result<(), NoMemory> {
        self.nodes.push(None)?;
        Ok(())
    }

    /// Notes the literal of the next node, and tells the place of a node that may have the complementary one.
    pub fn add(
        &mut self,
        alloc: Global,
        sign: Sign,
        spot: &Spot,
        symbol: SymbolId,
        arguments: &Terms,
    ) -> Result<Option<usize>, NoMemory> {
        let atom = self.atom(alloc, spot, symbol, arguments)?;
        if self.find(sign, atom).is_none() {
            self.put(sign, atom)?;
        }
        let complement = self.find(sign.other(), atom);
        self.nodes.push(Some(Literal { atom, sign }))?;
        Ok(complement)
    }

    /// Forgets the nodes past the first `length` ones.
    pub fn truncate(&mut self, length: usize) {
        self.nodes.truncate(length);
    }
}
