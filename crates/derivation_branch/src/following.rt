//! What follows a row at the beginning of another.

ghost use Rattle.std.specs.Prelude.{◌≡◌, ◌++◌, ◌∷◌, List, IsNone, IfSome};
ghost use Rattle.calculus.specs.Equality.{term_eq};
ghost use Rattle.calculus.specs.Syntax as tree;
ghost use Rattle.formula_text.specs.Rows.{row_of};

use cop_base::SymbolId;
use formula_text::RowItem;

/// What follows an item at the beginning of a row.
pub fn after_item(items: &[RowItem], item: RowItem) -> Option<&[RowItem]>
    ensures some { IfSome result (λ r. items.now ≡ item ∷ r.now) }
    ensures none { IsNone result → (rest : List RowItem) → ¬ (items.now ≡ item ∷ rest) }
{
    match items.split_first() {
        Some((first, rest)) => if *first == item { Some(rest) } else { None },
        None => None,
    }
}

/// What follows the symbol before its arguments.
pub fn after_symbol<'b>(items: &'b [RowItem], f: SymbolId, count: usize) -> Option<&'b [RowItem]>
    ensures some { IfSome result (λ r. items.now ≡ RowItem.Fun f count ∷ r.now) }
    ensures none { IsNone result → (rest : List RowItem) → ¬ (items.now ≡ RowItem.Fun f count ∷ rest) }
{
    match items.split_first() {
        Some((RowItem::Fun(g, n), rest)) => if *g == f && *n as usize == count {
            Some(rest)
        } else {
            None
        },
        _ => None,
    }
}

/// What follows a row at the beginning of a row.
pub fn after_items<'b>(items: &'b [RowItem], front: &[RowItem]) -> Option<&'b [RowItem]>
    ensures some { IfSome result (λ r. items.now ≡ front.now ++ r.now) }
    ensures none { IsNone result → (rest : List RowItem) → ¬ (items.now ≡ front.now ++ rest) }
{
    let mut rest = items;
    for item in front.iter() {
        rest = after_item(rest, *item)?;
    }
    Some(rest)
}

/// Whether a row begins with that of a term, and nothing follows.
pub fn is_whole(rest: Option<&[RowItem]>) -> bool
    ensures told { (t u : tree.Term) → IfSome rest.entry (λ r. row_of t ≡ row_of u ++ r.now)
        → (IsNone rest.entry → (r : List RowItem) → ¬ (row_of t ≡ row_of u ++ r))
        → result ≡ term_eq t u }
    ensures turned { (t u : tree.Term) → IfSome rest.entry (λ r. row_of t ≡ row_of u ++ r.now)
        → (IsNone rest.entry → (r : List RowItem) → ¬ (row_of t ≡ row_of u ++ r))
        → result ≡ term_eq u t }
{
    match rest {
        Some(rest) => rest.is_empty(),
        None => false,
    }
}

/// Whether two rows of terms are the same.
pub fn is_same_row(first: &[RowItem], second: &[RowItem]) -> bool
    ensures { (t u : tree.Term) → first.now ≡ row_of t → second.now ≡ row_of u
        → result ≡ term_eq t u }
{
    is_whole(after_items(first, second))
}
