//! What is ahead of a branch: turns of an instance, and what closes the branch at the literals among them.

ghost use Rattle.std.specs.Prelude.{◌≡◌, ◌+◌, ◌-◌, ◌++◌, ◌&&◌, ℕ, List, MatchOption, if◌then◌else◌, length, map, take, drop, nat_le, nat_lt, nat_eq};
ghost use Rattle.conversion_theory.specs.Leading.{ends_at, ends_of};
ghost use Rattle.calculus.specs.Lists.{closings_tree};
ghost use Rattle.formula_core.specs.GroundLists.{GroundList};
ghost use Rattle.sequent_convert.specs.AheadView.{IsExtended, IsNotExtended, ends_sizes, instance_count};
ghost use Rattle.sequent_convert.specs.ByNumber.AheadView.{closing_sizes, sizes_among, starts_with, the_ends};
ghost use Rattle.tableau_core.specs.Numbered.ClosingView.{closing_in, the_closing};

use tableau_core::{Closing, ClosingList};

/// What closes a branch that has come to a literal of an instance.
#[derive(Clone, Copy)]
enum End<'t> {
    /// A literal of the path: this is the literal by which the instance is connected.
    MeetsPath,
    By(&'t Closing),
}

/// The ends of literals of an instance, in order: those before the connected literal, that of the connected literal if it is
/// among them, and those behind it.
#[derive(Clone, Copy)]
pub struct Ends<'t> {
    pub before: &'t [Closing],
    pub meets_path: bool,
    pub after: &'t [Closing],
}

impl<'t> Ends<'t> {
    /// Those of the start clause.
    #[tactic(auto, using(crate::proofs::ByNumber::Ends::starting))]
    pub fn of_start(goals: &'t ClosingList) -> Ends<'t>
        ensures { (ls : List GroundList) → the_ends ls result ≡ ends_of (closings_tree (map (closing_in ls) goals.now)) }
    {
        let goals = goals.items();
        Ends {
            before: goals,
            meets_path: false,
            after: past_first(goals, goals.len()),
        }
    }

    /// Those of an extension by the literal at the place.
    #[tactic(auto, using(crate::proofs::ByNumber::Ends::extension))]
    pub fn of_extension(goals: &'t ClosingList, place: usize) -> Ends<'t>
        ensures { (ls : List GroundList) → the_ends ls result ≡ ends_at place (closings_tree (map (closing_in ls) goals.now)) }
    {
        let goals = goals.items();
        Ends {
            before: first_of(goals, place),
            meets_path: is_within(place, goals.len()),
            after: past_first(goals, place),
        }
    }

    /// The first one.
    fn first(&self) -> Option<End<'t>>
        ensures { (ls : List GroundList) → starts_with ls (the_ends ls self.now) result }
    {
        if let Some((goal, _)) = self.before.split_first() {
            return Some(End::By(goal));
        }
        if self.meets_path {
            return Some(End::MeetsPath);
        }
        match self.after.split_first() {
            Some((goal, _)) => Some(End::By(goal)),
            None => None,
        }
    }

    /// The place of the connected literal and the goals of the first one, where it is an extension.
    #[tactic(auto, using(crate::proofs::ByNumber::Ends::starts))]
    pub fn extension(&self) -> Option<(usize, &'t ClosingList)>
        ensures { (ls : List GroundList) → MatchOption result (IsNotExtended (the_ends ls self.now))
            (λ r. IsExtended (the_ends ls self.now) r.0 (closings_tree (map (closing_in ls) r.1.now))) }
    {
        match self.first() {
            Some(End::By(Closing::Extend { literal, goals, .. })) => {
                Some((*literal as usize, goals))
            }
            Some(End::By(Closing::Reduce { .. })) => None,
            Some(End::MeetsPath) => None,
            None => None,
        }
    }

    /// The first n.
    #[tactic(auto, using(crate::proofs::ByNumber::Ends::parts))]
    pub fn take(&self, n: usize) -> Ends<'t>
        ensures { (ls : List GroundList) → the_ends ls result ≡ take n (the_ends ls self.now) }
    {
        let rest = n.saturating_sub(self.before.len());
        Ends {
            before: first_of(self.before, n),
            meets_path: is_passed(self.meets_path, rest),
            after: first_of(self.after, behind(self.meets_path, rest)),
        }
    }

    /// Those behind the first n.
    #[tactic(auto, using(crate::proofs::ByNumber::Ends::parts))]
    pub fn skip(&self, n: usize) -> Ends<'t>
        ensures { (ls : List GroundList) → the_ends ls result ≡ drop n (the_ends ls self.now) }
    {
        let rest = n.saturating_sub(self.before.len());
        Ends {
            before: past_first(self.before, n),
            meets_path: is_left(self.meets_path, rest),
            after: past_first(self.after, behind(self.meets_path, rest)),
        }
    }

    /// The place behind the instances of their closings, the first of which has the given place among the sizes.
    pub fn behind(&self, sizes: &[usize], place: usize) -> usize
        requires { (ls : List GroundList) × (rest : List ℕ) × (drop place sizes.now ≡ ends_sizes (the_ends ls self.now) ++ rest) }
        ensures { (ls : List GroundList) → result ≡ place + instance_count (the_ends ls self.now) }
    {
        let middle = behind_closings(sizes, self.before, place);
        behind_closings(sizes, self.after, middle)
    }
}

fn is_within(place: usize, count: usize) -> bool
    ensures { result ≡ nat_le place count }
{
    place <= count
}

// How many of the rest stand behind the end that meets the path.
fn behind(meets_path: bool, rest: usize) -> usize
    ensures { result ≡ (if meets_path then rest - 1 else rest) }
{
    if meets_path {
        rest.saturating_sub(1)
    } else {
        rest
    }
}

fn is_passed(meets_path: bool, rest: usize) -> bool
    ensures { result ≡ (meets_path && nat_lt 0 rest) }
{
    meets_path && 0 < rest
}

fn is_left(meets_path: bool, rest: usize) -> bool
    ensures { result ≡ (meets_path && nat_eq rest 0) }
{
    meets_path && rest == 0
}

// The first n, or all where there are fewer.
fn first_of<'t>(goals: &'t [Closing], n: usize) -> &'t [Closing]
    ensures { result.now ≡ take n goals.now }
{
    if n <= goals.len() { &goals[..n] } else { goals }
}

fn past_first<'t>(goals: &'t [Closing], n: usize) -> &'t [Closing]
    ensures { result.now ≡ drop n goals.now }
{
    if n <= goals.len() {
        &goals[n..]
    } else {
        &goals[goals.len()..]
    }
}

// The place behind the instances of the closings.
fn behind_closings(sizes: &[usize], goals: &[Closing], place: usize) -> usize
    requires { (rest : List ℕ) × (drop place sizes.now ≡ sizes_among goals.now ++ rest) }
    ensures { result ≡ place + length (sizes_among goals.now) }
{
    let mut at = place;
    for goal in goals {
        at = behind_closing(sizes, goal, at);
    }
    at
}

fn behind_closing(sizes: &[usize], goal: &Closing, place: usize) -> usize
    requires { (rest : List ℕ) × (drop place sizes.now ≡ closing_sizes (the_closing goal.now) ++ rest) }
    ensures { result ≡ place + length (closing_sizes (the_closing goal.now)) }
{
    match goal {
        Closing::Reduce { .. } => place,
        Closing::Extend { .. } => place + sizes[place],
    }
}

/// The turns ahead, as places of the agenda, with their ends.
#[derive(Clone, Copy)]
pub struct Ahead<'t> {
    pub turns: &'t [usize],
    pub ends: Ends<'t>,
    /// The place of the first instance of the ends' closings among the instances of the tableau.
    pub instance: usize,
}
