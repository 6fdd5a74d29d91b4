//! Lists of choices without open goals: what they ask of labels is solved, and the tableau is read
//! off.

ghost use Rattle.std.specs.Prelude.{◌≡◌, ℕ, IfOk, IsTrue, List, length};
ghost use Rattle.std.specs.List.{AllByRecursion, flat_map, list_all};
ghost use Rattle.store_theory.specs.Bindings.{KeepsMarks};
ghost use Rattle.calculus.specs.Choices.{Choice, choices_of, ground_choices};
ghost use Rattle.calculus.specs.Tableaux as tableaux;
ghost use Rattle.prefix_split.specs.declared.solving.Solved.TheVariants as solved;
ghost use Rattle.tableau_core.specs.Numbered.TableauView.{the_tableau};
ghost use Rattle.term_store.specs.Room.{KeepsRoom};
ghost use Rattle.connection_search.specs.Deciding.{HasOwnTableau, IsDecided};
ghost use Rattle.connection_search.specs.Deciding.{IsSolvedTree, IsSolving};
ghost use Rattle.tableau_reading.specs.Listing.{names_of};
ghost use Rattle.connection_search.specs.Moments.{IsSpaceOf};
ghost use Rattle.tableau_reading.specs.Readable.{IsReadableStep, is_gamma_below};
ghost use Rattle.tableau_reading.specs.Reading.{IsStarted};
ghost use Rattle.search_tree.specs.Running.{TreeStands, TreeStandsWhole};
ghost use Rattle.search_tree.specs.Trees.{gammas_of};

use crate::limit_search::LimitSearch;
use crate::visit::Visit;
use cop_base::{Ledger, NoMemory};
use prefix_split::Solved;
use search_tree::SearchState;
use tableau_core::Tableau;
use tableau_reading::{Source, all_gammas, homes_of, solve_system, system_of, tableau_of};
use term_store::Store;

impl LimitSearch<'_> {
    // Solves what the choices ask of labels, where there are labels.
    fn solve_tree(
        &self,
        ledger: &mut Ledger,
        store: &mut Store,
        work: &SearchState,
    ) -> Result<Solved, NoMemory>
        requires { (base : ℕ) × (c : List Choice) × IsSpaceOf self.now
            × TreeStandsWhole self.now.problem.now self.now.matrix.now base self.now.limit c store.old
            work.now.tree }
        ensures own { IfOk result (λ a. a ≡ solved.Found
            → HasOwnTableau self.now.problem.now self.now.matrix.now self.now.limit store.new.store
            work.now.tree.steps.items) }
        ensures solved { IfOk result (λ a. (base : ℕ) (c : List Choice)
            → TreeStands self.now.problem.now self.now.matrix.now base self.now.limit c store.old
            work.now.tree
            → IsSolvedTree self.now.problem.now self.now.matrix.now store.old.store
            work.now.tree.steps.items work.now.tree.goals.items ledger.old.used ledger.new.used
            ledger.new.budget store.new.store a) }
        ensures counted { IsSolving self.now.problem.now self.now.matrix.now store.old.store
            work.now.tree.steps.items work.now.tree.goals.items
            ledger.old.used ledger.new.used }
        ensures budget { ledger.new.budget ≡ ledger.old.budget }
        ensures marks { KeepsMarks store.old.store store.new.store }
        ensures room { KeepsRoom store.old store.new }
    {
        let logic = self.problem.setting().logic();
        if !logic.has_labels() {
            return Ok(Solved::Found);
        }
        let system = system_of(work.alloc, self.matrix, &work.tree)?;
        let solved = solve_system(work.alloc, self.problem, ledger, store, &system)?;
        Ok(solved)
    }

    // The tableau of the tree, which is closed: own spares give the tree's choices a closed tableau,
    // and this is the one that is read off.
    fn answer(&self, store: &Store, work: &SearchState) -> Result<Tableau, NoMemory>
        requires steps { AllByRecursion (IsReadableStep store.now.store self.now.matrix.now)
            work.now.tree.steps.items }
        requires gammas { IsTrue (list_all (is_gamma_below (length store.now.store.cells))
            (flat_map gammas_of work.now.tree.steps.items)) }
        requires started { IsStarted work.now.tree.steps.items }
        requires own { HasOwnTableau self.now.problem.now self.now.matrix.now self.now.limit
            store.now.store work.now.tree.steps.items }
        ensures closed { IfOk result (λ t. IsTrue (tableaux.is_closed self.now.problem.now self.now.limit
            (the_tableau t))) }
        ensures names { IfOk result (λ t. choices_of (ground_choices (the_tableau t))
            ≡ names_of self.now.matrix.now work.now.tree.steps.items) }
    {
        let gammas = all_gammas(work.alloc, &work.tree)?;
        let homes = homes_of(work.alloc, store, gammas, self.problem.common_spares())?;
        let from = Source {
            alloc: work.alloc,
            store,
            homes: &homes,
            matrix: self.matrix,
        };
        let tableau = tableau_of(&from, &work.tree)?;
        Ok(tableau)
    }

    /// Decides a list of choices without open goals, none of whose goals is the same as one above
    /// it.
    pub(crate) fn decide(
        &self,
        ledger: &mut Ledger,
        store: &mut Store,
        work: &SearchState,
    ) -> Result<Visit, NoMemory>
        requires { (base : ℕ) × (c : List Choice) × IsSpaceOf self.now
            × TreeStandsWhole self.now.problem.now self.now.matrix.now base self.now.limit c store.old
            work.now.tree }
        ensures decided { IfOk result (λ v. (base : ℕ) (c : List Choice)
            → TreeStands self.now.problem.now self.now.matrix.now base self.now.limit c store.old
            work.now.tree
            → IsDecided self.now.problem.now self.now.matrix.now self.now.limit c store.old.store
            work.now.tree.steps.items work.now.tree.goals.items ledger.old.used ledger.new.used
            ledger.new.budget store.new.store v) }
        ensures counted { IsSolving self.now.problem.now self.now.matrix.now store.old.store
            work.now.tree.steps.items work.now.tree.goals.items
            ledger.old.used ledger.new.used }
        ensures budget { ledger.new.budget ≡ ledger.old.budget }
        ensures marks { KeepsMarks store.old.store store.new.store }
        ensures room { KeepsRoom store.old store.new }
    {
        let _start = store.mark();
        match self.solve_tree(ledger, store, work)? {
            Solved::None => Ok(Visit::On),
            Solved::Steps => Ok(Visit::Steps),
            Solved::Found => {
                let tableau = self.answer(store, work)?;
                Ok(Visit::Closed(tableau))
            }
        }
    }
}
