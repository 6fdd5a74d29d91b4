//! What points keep in mind of the goals that were open since they were made.

ghost use Rattle.std.specs.Prelude.{◌≡◌, ℕ, length};
ghost use Rattle.search_tree.specs.Seeing.{SeeMore, number_of, seen_after};

use search_tree::{Point, Tree};

// The number of the leftmost open goal, or 0 where there is none.
fn number_of(first: Option<usize>) -> usize
    ensures { result ≡ number_of first }
{
    match first {
        None => 0,
        Some(goal) => goal,
    }
}

/// The number of the leftmost open goal behind a choice, before which so many were made, or 0 where
/// there is none. Where the choice was not made, no goal has the number.
pub(crate) fn seen(tree: &Tree, before: usize) -> usize
    ensures { result ≡ seen_after before (length tree.now.steps.items) tree.now.open }
{
    if tree.steps.len() <= before {
        return usize::MAX;
    }
    number_of(tree.open)
}

/// The last point has seen a goal of this number.
pub(crate) fn lower(points: &mut Vec<Point>, goal: usize)
    ensures { SeeMore goal points.old.items points.new.items }
{
    let count = points.len();
    if count > 0 {
        let mut last = points[count - 1];
        last.see(goal);
        points[count - 1] = last;
    }
}
