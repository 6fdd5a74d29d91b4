//! The moves of a tableau.

ghost use Rattle.std.specs.Prelude.{◌≡◌, ◌++◌, ◌∷◌, [], List, map, IfOk, OnOk};
ghost use Rattle.calculus.specs.Lists.{closings_tree};
ghost use Rattle.calculus.specs.TableauText.{chosen_of, extension, moves_of, moves_of_all, tableau_moves};
ghost use Rattle.formula_core.specs.GroundLists.{GroundList};
ghost use Rattle.tableau_core.specs.Numbered.ClosingView.{closing_in, the_closing};
ghost use Rattle.tableau_core.specs.Numbered.InstanceView.{the_instance};
ghost use Rattle.tableau_core.specs.Numbered.TableauView.{the_tableau};
ghost use Rattle.tableau_text.specs.MovesView.{the_chosen, the_move, the_moves};

use crate::selection::copied;
use cop_base::NoMemory;
use std::alloc::Global;
use tableau_core::{ClauseInstance, Closing, ClosingList, Tableau};
use tableau_text::{Chosen, Move, Moves};

fn chosen_of(alloc: Global, instance: &ClauseInstance) -> Result<Chosen, NoMemory>
    ensures { IfOk result (λ c. (ls : List GroundList) → the_chosen ls c ≡ chosen_of (the_instance ls instance.now)) }
{
    let selection = copied(alloc, &instance.selection)?;
    Ok(Chosen {
        selection,
        values: instance.values,
    })
}

fn extension_of(alloc: Global, instance: &ClauseInstance, place: u32) -> Result<Move, NoMemory>
    ensures { IfOk result (λ m. (ls : List GroundList) → the_move ls m ≡ extension place (chosen_of (the_instance ls instance.now))) }
{
    let chosen = chosen_of(alloc, instance)?;
    Ok(Move::Extension { place, chosen })
}

// Puts the moves of a closing behind the others.
#[cycle(flattening)]
fn put_moves(alloc: Global, moves: &mut Vec<Move>, closing: &Closing) -> Result<(), NoMemory>
    ensures { (ls : List GroundList) → OnOk result (map (the_move ls) moves.new.items
        ≡ map (the_move ls) moves.old.items ++ moves_of (closing_in ls (the_closing closing.now))) }
{
    match closing {
        Closing::Reduce { up } => {
            moves.push(Move::Reduction(*up))?;
            Ok(())
        }
        Closing::Extend {
            instance,
            literal,
            goals,
        } => {
            let extension = extension_of(alloc, instance, *literal)?;
            moves.push(extension)?;
            put_all_moves(alloc, moves, goals)?;
            Ok(())
        }
    }
}

#[cycle(flattening)]
#[tactic(auto, using(tableau_core::specs::Numbered::ClosingFalls::falling))]
fn put_all_moves(
    alloc: Global,
    moves: &mut Vec<Move>,
    closings: &ClosingList,
) -> Result<(), NoMemory>
    ensures { (ls : List GroundList) → OnOk result (map (the_move ls) moves.new.items
        ≡ map (the_move ls) moves.old.items ++ moves_of_all (closings_tree (map (closing_in ls) closings.now))) }
{
    let items = closings.items();
    for i in 0..items.len() {
        let item = &items[i];
        put_moves(alloc, moves, item)?;
    }
    Ok(())
}

/// The moves of the tableau in preorder, with a path limit. Calls nest through closings as deep as the
/// tableau.
pub fn moves_of(alloc: Global, t: &Tableau, limit: u8) -> Result<Moves, NoMemory>
    ensures { IfOk result (λ x. the_moves x ≡ tableau_moves (the_tableau t.now) limit) }
{
    let table = t.table.copy(alloc)?;
    let start = chosen_of(alloc, &t.start)?;
    let mut moves = Vec::new(alloc);
    put_all_moves(alloc, &mut moves, &t.goals)?;
    Ok(Moves {
        limit,
        table,
        start,
        moves,
    })
}
