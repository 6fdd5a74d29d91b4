//! The two parts of what is ahead behind a fork.

ghost use Rattle.std.specs.Prelude.{◌≡◌, ◌<◌, ◌∷◌, ℕ, List, length, take, drop, if◌then◌else◌};
ghost use Rattle.std.specs.List.{AllByRecursion};
ghost use Rattle.conversion_theory.specs.Leading as leading;
ghost use Rattle.sequent_convert.specs.ByNumber.AheadView.{the_ahead};
ghost use Rattle.sequent_convert.specs.ByNumber.RunView.{the_source, the_table};
ghost use Rattle.sequent_convert.specs.State.{IsAhead, IsBasis, first_part, second_part, turn_at, turns_at};

use crate::ahead::Ahead;
use crate::source::Source;

// 1 where the turn is on an atom, else 0.
#[tactic(auto, using(crate::proofs::ByNumber::StateLaws::states))]
fn literal_at(source: &Source, turn: usize) -> usize
    requires basis { IsBasis (the_source source.now) }
    requires within { turn < length source.now.named.now.agenda }
    ensures { result ≡ (if leading.is_literal_position source.now.problem.now (turn_at (the_source source.now) turn).position then 1 else 0) }
{
    let agenda = source.named.agenda();
    if source.atoms[agenda[turn].position.0 as usize] {
        1
    } else {
        0
    }
}

// The first n turns, or all where there are fewer.
fn turns_until<'t>(turns: &'t [usize], n: usize) -> &'t [usize]
    ensures { result.now ≡ take n turns.now }
{
    if n <= turns.len() { &turns[..n] } else { turns }
}

pub(crate) fn turns_from<'t>(turns: &'t [usize], n: usize) -> &'t [usize]
    ensures { result.now ≡ drop n turns.now }
{
    if n <= turns.len() {
        &turns[n..]
    } else {
        &turns[turns.len()..]
    }
}

// How many of the turns are on atoms.
#[tactic(auto, using(crate::proofs::ByNumber::StateLaws::states))]
fn literals_among(source: &Source, turns: &[usize]) -> usize
    requires basis { IsBasis (the_source source.now) }
    requires within { AllByRecursion (λ k. k < length source.now.named.now.agenda) turns.now }
    ensures { result ≡ leading.literals_among source.now.problem.now (turns_at (the_source source.now) turns.now) }
{
    let mut count = 0;
    for turn in turns {
        count += literal_at(source, *turn);
    }
    count
}

// How many of the turns at the front have positions before the given one.
#[tactic(auto, using(crate::proofs::ByNumber::StateLaws::states))]
fn turns_before(source: &Source, turns: &[usize], position: u32) -> usize
    requires within { AllByRecursion (λ k. k < length source.now.named.now.agenda) turns.now }
    ensures { result ≡ leading.turns_before position (turns_at (the_source source.now) turns.now) }
{
    let agenda = source.named.agenda();
    for i in 0..turns.len() {
        if agenda[turns[i]].position.0 >= position {
            return i;
        }
    }
    turns.len()
}

// The two parts of what is ahead behind its first turn, where the second part begins at the position.
#[tactic(auto, using(crate::proofs::ByNumber::StateLaws::states))]
pub(crate) fn parts_at<'a>(
    source: &Source,
    ahead: &Ahead<'a>,
    position: u32,
) -> (Ahead<'a>, Ahead<'a>)
    requires basis { IsBasis (the_source source.now) }
    requires ahead { IsAhead (the_source source.now) (the_ahead (the_table source.now) ahead.now) }
    requires some { 0 < length ahead.now.turns.now }
    ensures { (k : ℕ) (ks : List ℕ) → ahead.now.turns.now ≡ k ∷ ks
        → (the_ahead (the_table source.now) result.0 ≡ first_part (the_source source.now) position ks (the_ahead (the_table source.now) ahead.now))
        × (the_ahead (the_table source.now) result.1 ≡ second_part (the_source source.now) position ks (the_ahead (the_table source.now) ahead.now)) }
{
    let turns = turns_from(ahead.turns, 1);
    let middle = turns_before(source, turns, position);
    let first = turns_until(turns, middle);
    let literals = literals_among(source, first);
    let ends = ahead.ends.take(literals);
    let instance = ahead.instance;
    let next = ends.behind(source.sizes, instance);
    (
        Ahead {
            turns: first,
            ends,
            instance,
        },
        Ahead {
            turns: turns_from(turns, middle),
            ends: ahead.ends.skip(literals),
            instance: next,
        },
    )
}
