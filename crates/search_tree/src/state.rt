//! Start, reduction and extension.

ghost use Rattle.std.specs.Prelude.{◌≡◌, ◌<◌, ◌++◌, ◌∷◌, [], ℕ, List, IfOk, IsTrue};
ghost use Rattle.std.specs.Prelude.{None, OnOk, Some, drop, false, length, option_map, slice_get, true};
ghost use Rattle.std.specs.List.{AllByRecursion};
ghost use Rattle.store_theory.specs.Bindings.{KeepsMarks};
ghost use Rattle.store_theory.specs.Patterns.{Template};
ghost use Rattle.calculus.specs.Choices.{Choice, reduction, start};
ghost use Rattle.calculus.specs.Syntax.{Problem};
ghost use Rattle.matrix_build.specs.MatrixView.{the_place};
ghost use Rattle.search_theory.specs.DeadEnds.{IsDead};
ghost use Rattle.search_theory.specs.Matrix.{MatrixClause, all_shown};
ghost use Rattle.search_theory.specs.Regular.{HasNoSamePair};
ghost use Rattle.search_theory.specs.OrderedChoices.{extension_at, selection_of};
ghost use Rattle.search_theory.specs.States.{CellChoice, CellGoal, CellGrowth};
ghost use Rattle.term_store.specs.RefView.{the_places};
ghost use Rattle.term_store.specs.Room.{KeepsRoom};
ghost use Rattle.search_tree.specs.GivenUp.{HasLost, IsGivenUp, IsRuledOut, LooksAhead};
ghost use Rattle.search_tree.specs.MetAtom.{HeadMatched};
ghost use Rattle.search_tree.specs.Points.{IsMoveAt, the_move};
ghost use Rattle.search_tree.specs.Running.{ExtendsBy, GoalStands, IsAt, IsMatrixOf};
ghost use Rattle.search_tree.specs.Running.{ReducesBy, TreeStands, TreeStandsDeep};
ghost use Rattle.search_tree.specs.Trees.{KeepsTree};

use crate::atoms::{met_atom, unify_all};
use crate::label_tests::Tests;
use crate::look::Look;
use crate::occurrences::Occurrences;
use crate::point::Move;
use crate::regular::{are_new_from, first_repeated, is_new, repeated_above};
use crate::tree::{Copied, Tree};
use crate::uncopied::is_set_aside;
use cop_base::{ClauseId, NoMemory};
use matrix_build::{Matrix, Place};
use std::alloc::Global;
use term_store::{Store, Variables};
use term_unify::Unifier;

// How many choices are tried for each goal of the tree before all its goals are looked at again.
const CHOICES_PER_GOAL: usize = 32;

/// What a search works on: the store's bindings, and the tree over its cells.
#[derive(Drop)]
pub struct SearchState {
    pub alloc: Global,
    pub tree: Tree,
    pub unifier: Unifier,
    pub tests: Tests,
    occurrences: Occurrences,
    pub look: Look,
    // How many choices were tried since the last look at all goals ended.
    tried: usize,
    // How many goals this look has found new. Going back takes bindings away, so they stay new.
    seen: usize,
}

// The variables of a copy of the place's clause, over which its literal was matched with the goal,
// where that can be done, and where no other literal gives a goal that is the same as one above it,
// nor one that cannot be closed within the limit that is looked at, if any.
fn meet(
    unifier: &mut Unifier,
    occurrences: &mut Occurrences,
    store: &mut Store,
    matrix: &Matrix,
    tree: &Tree,
    goal: usize,
    place: Place,
    ahead: Option<usize>,
) -> Result<Option<Variables>, NoMemory>
    requires { (P : Problem) × (base : ℕ) × (d : ℕ) × (c : List Choice) × (g : CellGoal)
        × IsMatrixOf P matrix.now × GoalStands P matrix.now base d c store.old tree.now goal g
        × ExtendsBy matrix.now d g (the_place place) }
    ensures met { IfOk result (λ found. (v : Variables) → found ≡ Some v
        → (P : Problem) (base d : ℕ) (c : List Choice) (g : CellGoal) (t : Template)
        → GoalStands P matrix.now base d c store.old tree.now goal g
        → (e : ExtendsBy matrix.now d g (the_place place))
        → option_map (λ (x : MatrixClause). x.template) (slice_get matrix.now place.clause.0) ≡ Some t
        → HeadMatched store.old.store store.new.store t place.literal (the_places v) e.literal
        g.literal.args) }
    ensures refused { IfOk result (λ found. found ≡ None
        → (P : Problem) (base d : ℕ) (c : List Choice) (g : CellGoal) → IsMatrixOf P matrix.now
        → GoalStands P matrix.now base d c store.old tree.now goal g
        → ExtendsBy matrix.now d g (the_place place) → LooksAhead ahead d
        → IsRuledOut P d (c ++ extension_at matrix.now (the_place place) ∷ []) ahead) }
    ensures given_up { IfOk result (λ found. found ≡ None
        → (P : Problem) (base d : ℕ) (c : List Choice) (g : CellGoal) → IsMatrixOf P matrix.now
        → GoalStands P matrix.now base d c store.old tree.now goal g
        → ExtendsBy matrix.now d g (the_place place) → LooksAhead ahead d
        → IsGivenUp P matrix.now base d (c ++ extension_at matrix.now (the_place place) ∷ [])
        (length tree.now.goals.items) store.new tree.now) }
    ensures marks { KeepsMarks store.old.store store.new.store }
    ensures room { KeepsRoom store.old store.new }
{
    let _before = store.mark();
    let template = matrix.template(place.clause);
    let at = place.literal as usize;
    let signed = tree.atom(goal);
    let literal = &template.literals.items()[at];
    let cells = store.size() - store.spare();
    let variables = store.new_variables(&template.sorts)?;
    let terms = signed.args.items();
    if !unifier.match_all(store, cells, terms, &literal.args, variables)? {
        return Ok(None);
    }
    if template.literals.items().len() > 1 {
        let others = occurrences.others(place.clause, template, place.literal)?;
        if is_set_aside(
            unifier, store, matrix, tree, goal, template, at, variables, &others, ahead,
        )? {
            return Ok(None);
        }
    }
    Ok(Some(variables))
}

impl SearchState {
    pub fn new(alloc: Global) -> SearchState
        ensures steps { result.tree.steps.items ≡ [] }
        ensures goals { result.tree.goals.items ≡ [] }
    {
        SearchState {
            alloc,
            tree: Tree::new(alloc),
            unifier: Unifier::new(alloc),
            tests: Tests::new(),
            occurrences: Occurrences::new(alloc),
            look: Look::new(alloc),
            tried: 0,
            seen: 0,
        }
    }

    /// Starts a tree with the clause.
    pub fn start(
        &mut self,
        store: &mut Store,
        matrix: &Matrix,
        clause: ClauseId,
    ) -> Result<(), NoMemory>
        requires matrix { (P : Problem) × IsMatrixOf P matrix.now }
        requires clause { clause.0 < length matrix.now }
        requires steps { self.old.tree.steps.items ≡ [] }
        requires goals { self.old.tree.goals.items ≡ [] }
        ensures started { OnOk result ((P : Problem) (d : ℕ) → IsMatrixOf P matrix.now
            → option_map (λ (x : MatrixClause). all_shown x.template) (slice_get matrix.now
            clause.0) ≡ Some true
            → TreeStands P matrix.now (length store.old.store.cells) d (start (selection_of
            (slice_get matrix.now clause.0)) ∷ []) store.new self.new.tree) }
        ensures marks { KeepsMarks store.old.store store.new.store }
        ensures room { KeepsRoom store.old store.new }
    {
        let _before = store.mark();
        let copy = store.copy_clause(matrix.template(clause))?;
        let _after = store.mark();
        self.tree.start(Copied { clause, copy })?;
        Ok(())
    }

    fn reduce(
        &mut self,
        store: &mut Store,
        goal: usize,
        up: u32,
        ancestor: usize,
    ) -> Result<bool, NoMemory>
        requires { (P : Problem) × (m : List MatrixClause) × (base : ℕ) × (d : ℕ)
            × (c : List Choice) × (g : CellGoal)
            × GoalStands P m base d c store.old self.old.tree goal g
            × ReducesBy self.old.tree.steps.items self.old.tree.goals.items g up ancestor }
        ensures made { IfOk result (λ made. made ≡ true
            → (P : Problem) (m : List MatrixClause) (base d : ℕ) (c : List Choice) (g : CellGoal)
            → GoalStands P m base d c store.old self.old.tree goal g
            → ReducesBy self.old.tree.steps.items self.old.tree.goals.items g up ancestor
            → TreeStands P m base d (c ++ reduction up ∷ []) store.new self.new.tree) }
        ensures refused { IfOk result (λ made. made ≡ false
            → (P : Problem) (m : List MatrixClause) (base d : ℕ) (c : List Choice) (g : CellGoal)
            → GoalStands P m base d c store.old self.old.tree goal g
            → ReducesBy self.old.tree.steps.items self.old.tree.goals.items g up ancestor
            → IsDead P (c ++ reduction up ∷ [])) }
        ensures given_up { IfOk result (λ made. made ≡ false
            → (P : Problem) (m : List MatrixClause) (base d : ℕ) (c : List Choice) (g : CellGoal)
            → GoalStands P m base d c store.old self.old.tree goal g
            → ReducesBy self.old.tree.steps.items self.old.tree.goals.items g up ancestor
            → IsGivenUp P m base d (c ++ reduction up ∷ []) (length self.old.tree.goals.items)
            store.new self.new.tree) }
        ensures kept { OnOk result (KeepsTree self.old.tree.steps.items self.old.tree.goals.items
            self.new.tree.steps.items self.new.tree.goals.items) }
        ensures marks { KeepsMarks store.old.store store.new.store }
        ensures room { KeepsRoom store.old store.new }
    {
        let xs = self.tree.atom(goal).args.items();
        let ys = self.tree.atom(ancestor).args.items();
        if !unify_all(&mut self.unifier, store, 0, xs, ys)? {
            return Ok(false);
        }
        let _met = store.mark();
        self.tree.reduce(goal, up, ancestor)?;
        let new = self.is_leftmost_new(store)?;
        Ok(new)
    }

    /// Extends the goal by the literal at the place, which has its symbol and the other sign. The
    /// other literals are looked at before they are copied: no goal is to be the same as one above
    /// it, nor one that cannot be closed within the limit that is looked at, if any.
    pub fn extend(
        &mut self,
        store: &mut Store,
        matrix: &Matrix,
        goal: usize,
        place: Place,
        ahead: Option<usize>,
    ) -> Result<bool, NoMemory>
        requires { (P : Problem) × (base : ℕ) × (d : ℕ) × (c : List Choice) × (g : CellGoal)
            × IsMatrixOf P matrix.now
            × GoalStands P matrix.now base d c store.old self.old.tree goal g
            × ExtendsBy matrix.now d g (the_place place) }
        ensures made { IfOk result (λ made. made ≡ true
            → (P : Problem) (base d : ℕ) (c : List Choice) (g : CellGoal) → IsMatrixOf P matrix.now
            → GoalStands P matrix.now base d c store.old self.old.tree goal g
            → ExtendsBy matrix.now d g (the_place place)
            → TreeStands P matrix.now base d (c ++ extension_at matrix.now (the_place place) ∷ [])
            store.new self.new.tree) }
        ensures deep { IfOk result (λ made. made ≡ true
            → (P : Problem) (base d : ℕ) (c : List Choice) (g : CellGoal) → IsMatrixOf P matrix.now
            → GoalStands P matrix.now base d c store.old self.old.tree goal g
            → ExtendsBy matrix.now d g (the_place place)
            → TreeStandsDeep P matrix.now base d (c ++ extension_at matrix.now (the_place place) ∷
            []) store.new self.new.tree (length g.path)) }
        ensures refused { IfOk result (λ made. made ≡ false
            → (P : Problem) (base d : ℕ) (c : List Choice) (g : CellGoal) → IsMatrixOf P matrix.now
            → GoalStands P matrix.now base d c store.old self.old.tree goal g
            → ExtendsBy matrix.now d g (the_place place) → LooksAhead ahead d
            → IsRuledOut P d (c ++ extension_at matrix.now (the_place place) ∷ []) ahead) }
        ensures given_up { IfOk result (λ made. made ≡ false
            → (P : Problem) (base d : ℕ) (c : List Choice) (g : CellGoal) → IsMatrixOf P matrix.now
            → GoalStands P matrix.now base d c store.old self.old.tree goal g
            → ExtendsBy matrix.now d g (the_place place) → LooksAhead ahead d
            → IsGivenUp P matrix.now base d (c ++ extension_at matrix.now (the_place place) ∷ []) (length self.old.tree.goals.items)
            store.new self.new.tree) }
        ensures kept { OnOk result (KeepsTree self.old.tree.steps.items self.old.tree.goals.items
            self.new.tree.steps.items self.new.tree.goals.items) }
        ensures marks { KeepsMarks store.old.store store.new.store }
        ensures room { KeepsRoom store.old store.new }
    {
        let found = meet(
            &mut self.unifier,
            &mut self.occurrences,
            store,
            matrix,
            &self.tree,
            goal,
            place,
            ahead,
        )?;
        let variables = match found {
            Some(variables) => variables,
            None => return Ok(false),
        };
        let template = matrix.template(place.clause);
        let at = place.literal as usize;
        let label = store.copy_label(template, variables, at)?;
        let copy = store.copy_rest(template, variables, at)?;
        let signed = self.tree.atom(goal);
        let literal = &template.literals.items()[at];
        let terms = signed.args.items();
        let atom = met_atom(store, literal, terms, label)?;
        let _after = store.mark();
        let copied = Copied {
            clause: place.clause,
            copy,
        };
        let first = self.tree.goals.len();
        self.tree.extend(goal, copied, place.literal, atom)?;
        let regular = self.is_regular_from(store, first)?;
        Ok(regular)
    }

    // Whether the leftmost open goal is the same as none above it.
    fn is_leftmost_new(&mut self, store: &Store) -> Result<bool, NoMemory>
        requires { (P : Problem) × (m : List MatrixClause) × (base : ℕ) × (d : ℕ)
            × (c : List Choice) × TreeStands P m base d c store.now self.old.tree }
        ensures repeated { IfOk result (λ new. new ≡ false
            → (P : Problem) (m : List MatrixClause) (base d : ℕ) (c : List Choice)
            → TreeStands P m base d c store.now self.old.tree → IsDead P c) }
        ensures lost { IfOk result (λ new. new ≡ false
            → (P : Problem) (m : List MatrixClause) (base d n : ℕ) (c : List Choice)
            → TreeStands P m base d c store.now self.old.tree
            → HasLost P d c n self.old.tree.open) }
        ensures tree { self.new.tree ≡ self.old.tree }
    {
        match self.tree.open {
            None => Ok(true),
            Some(next) => {
                let new = is_new(&mut self.unifier, store, &self.tree, next)?;
                Ok(new)
            }
        }
    }

    // Whether the leftmost open goal is the same as none above it. Goals from this number on, which
    // the extension gave, were looked at before they were built.
    fn is_regular_from(&mut self, store: &Store, first: usize) -> Result<bool, NoMemory>
        requires { (P : Problem) × (m : List MatrixClause) × (base : ℕ) × (d : ℕ)
            × (c : List Choice) × TreeStands P m base d c store.now self.old.tree }
        ensures repeated { IfOk result (λ new. new ≡ false
            → (P : Problem) (m : List MatrixClause) (base d : ℕ) (c : List Choice)
            → TreeStands P m base d c store.now self.old.tree → IsDead P c) }
        ensures lost { IfOk result (λ new. new ≡ false
            → (P : Problem) (m : List MatrixClause) (base d : ℕ) (c : List Choice)
            → TreeStands P m base d c store.now self.old.tree
            → HasLost P d c first self.old.tree.open) }
        ensures tree { self.new.tree ≡ self.old.tree }
    {
        if first < self.tree.goals.len() {
            return Ok(true);
        }
        let new = self.is_leftmost_new(store)?;
        Ok(new)
    }

    /// Makes the choice at the goal, where it can be made, and where a limit is looked at, where no
    /// goal that it gives shows that it cannot be closed within the limit.
    pub fn make(
        &mut self,
        store: &mut Store,
        matrix: &Matrix,
        goal: usize,
        choice: Move,
        ahead: Option<usize>,
    ) -> Result<bool, NoMemory>
        requires { (P : Problem) × (base : ℕ) × (d : ℕ) × (c : List Choice) × (g : CellGoal)
            × IsMatrixOf P matrix.now
            × GoalStands P matrix.now base d c store.old self.old.tree goal g
            × IsMoveAt matrix.now d self.old.tree.steps.items self.old.tree.goals.items g choice }
        ensures made { IfOk result (λ made. made ≡ true
            → (P : Problem) (base d : ℕ) (c : List Choice) (g : CellGoal) → IsMatrixOf P matrix.now
            → GoalStands P matrix.now base d c store.old self.old.tree goal g
            → IsMoveAt matrix.now d self.old.tree.steps.items self.old.tree.goals.items g choice
            → TreeStands P matrix.now base d (c ++ the_move matrix.now choice ∷ []) store.new
            self.new.tree) }
        ensures refused { IfOk result (λ made. made ≡ false
            → (P : Problem) (base d : ℕ) (c : List Choice) (g : CellGoal) → IsMatrixOf P matrix.now
            → GoalStands P matrix.now base d c store.old self.old.tree goal g
            → IsMoveAt matrix.now d self.old.tree.steps.items self.old.tree.goals.items g choice
            → LooksAhead ahead d → IsRuledOut P d (c ++ the_move matrix.now choice ∷ []) ahead) }
        ensures given_up { IfOk result (λ made. made ≡ false
            → (P : Problem) (base d : ℕ) (c : List Choice) (g : CellGoal) → IsMatrixOf P matrix.now
            → GoalStands P matrix.now base d c store.old self.old.tree goal g
            → IsMoveAt matrix.now d self.old.tree.steps.items self.old.tree.goals.items g choice
            → LooksAhead ahead d → IsGivenUp P matrix.now base d (c ++ the_move matrix.now choice ∷ []) (length self.old.tree.goals.items)
            store.new self.new.tree) }
        ensures kept { OnOk result (KeepsTree self.old.tree.steps.items self.old.tree.goals.items
            self.new.tree.steps.items self.new.tree.goals.items) }
        ensures marks { KeepsMarks store.old.store store.new.store }
        ensures room { KeepsRoom store.old store.new }
    {
        match choice {
            Move::Reduce(up, ancestor) => {
                let made = self.reduce(store, goal, up, ancestor)?;
                Ok(made)
            }
            Move::Extend(place) => {
                let made = self.extend(store, matrix, goal, place, ahead)?;
                Ok(made)
            }
        }
    }

    /// Whether no goal is the same as one above it.
    pub fn is_regular(&mut self, store: &Store) -> Result<bool, NoMemory>
        requires { (P : Problem) × (m : List MatrixClause) × (base : ℕ) × (d : ℕ)
            × (c : List Choice) × TreeStands P m base d c store.now self.old.tree }
        ensures new { IfOk result (λ new. new ≡ true
            → (P : Problem) (m : List MatrixClause) (base d : ℕ) (c : List Choice)
            (cs : List CellChoice) (x : CellGrowth)
            → IsAt P m base d c store.now.store self.old.tree.steps.items self.old.tree.goals.items
            self.old.tree.open cs x
            → HasNoSamePair (record { store = store.now.store; choices = cs; growth = x })) }
        ensures repeated { IfOk result (λ new. new ≡ false
            → (P : Problem) (m : List MatrixClause) (base d : ℕ) (c : List Choice)
            → TreeStands P m base d c store.now self.old.tree → IsDead P c) }
        ensures tree { self.new.tree ≡ self.old.tree }
    {
        let new = are_new_from(&mut self.unifier, store, &self.tree, 0)?;
        Ok(new)
    }

    /// A goal above the leftmost open one that is the same as one above it. What was new when it was
    /// taken up can be the same by a later binding.
    pub fn repeated_on_path(&mut self, store: &Store) -> Result<Option<usize>, NoMemory>
        requires { (P : Problem) × (m : List MatrixClause) × (base : ℕ) × (d : ℕ)
            × (c : List Choice) × TreeStands P m base d c store.now self.old.tree }
        ensures dead { IfOk result (λ found. (n : ℕ) → found ≡ Some n
            → (P : Problem) (m : List MatrixClause) (base d : ℕ) (c : List Choice)
            → TreeStands P m base d c store.now self.old.tree → IsDead P c) }
        ensures lost { IfOk result (λ found. (n : ℕ) → found ≡ Some n
            → (P : Problem) (m : List MatrixClause) (base d : ℕ) (c : List Choice)
            → TreeStands P m base d c store.now self.old.tree → HasLost P d c n None) }
        ensures tree { self.new.tree ≡ self.old.tree }
    {
        match self.tree.open {
            None => Ok(None),
            Some(next) => {
                let found = repeated_above(&mut self.unifier, store, &self.tree, next)?;
                Ok(found)
            }
        }
    }

    /// Whether the tree is found to be irregular, before its next choice is tried. All its goals
    /// are looked at, but only where so many choices were tried since the last such look that it
    /// costs little beside them. A look that finds a goal repeated goes on from it at the next
    /// call, when the search has gone back.
    pub fn is_found_irregular(&mut self, store: &Store) -> Result<bool, NoMemory>
        requires { (P : Problem) × (m : List MatrixClause) × (base : ℕ) × (d : ℕ)
            × (c : List Choice) × TreeStands P m base d c store.now self.old.tree }
        ensures irregular { IfOk result (λ found. found ≡ true
            → (P : Problem) (m : List MatrixClause) (base d : ℕ) (c : List Choice)
            → TreeStands P m base d c store.now self.old.tree → IsDead P c) }
        ensures tree { self.new.tree ≡ self.old.tree }
    {
        if self.tried < self.tree.goals.len().saturating_mul(CHOICES_PER_GOAL) {
            self.tried += 1;
            return Ok(false);
        }
        if let Some(goal) = first_repeated(&mut self.unifier, store, &self.tree, self.seen)? {
            self.seen = goal;
            return Ok(true);
        }
        self.tried = 0;
        self.seen = 0;
        Ok(false)
    }
}
