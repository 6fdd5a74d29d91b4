//! Images of terms.

ghost use Rattle.std.specs.Prelude.{◌≡◌, map, IfOk};
ghost use Rattle.godel_transfer.specs.BranchView.{the_eigens};
ghost use Rattle.godel_transfer.specs.ImagesView.{AreImages};
ghost use Rattle.godel_transfer.specs.RowImages.{eigen_item, item_image};
ghost use Rattle.godel_transfer.specs.Transfer.{term_image};

use crate::images::Images;
use cop_base::NoMemory;
use formula_text::{RowItem, TermRow};
use std::alloc::Global;

// A name that no step introduced becomes the spare constant 1.
fn eigen_item(eigens: &Images, number: u32) -> RowItem
    requires images { AreImages eigens.now }
    ensures { result ≡ eigen_item (the_eigens eigens.now) number }
{
    match eigens.find(number) {
        Some(image) => RowItem::Eigen(image),
        None => RowItem::Spare(1),
    }
}

fn item_image(eigens: &Images, item: RowItem) -> RowItem
    requires images { AreImages eigens.now }
    ensures { result ≡ item_image (the_eigens eigens.now) item }
{
    match item {
        RowItem::Var(number) => RowItem::Var(number),
        RowItem::Fun(symbol, count) => RowItem::Fun(symbol, count),
        RowItem::Eigen(number) => eigen_item(eigens, number),
        RowItem::Spare(_) => RowItem::Spare(1),
    }
}

fn items_image(alloc: Global, eigens: &Images, items: &[RowItem]) -> Result<Vec<RowItem>, NoMemory>
    requires images { AreImages eigens.now }
    ensures { IfOk result (λ images. images.items ≡ map (item_image (the_eigens eigens.now)) items.now) }
{
    let mut images = Vec::new(alloc);
    for item in items {
        images.push(item_image(eigens, *item))?;
    }
    Ok(images)
}

/// The image of a term.
pub fn term_image(alloc: Global, eigens: &Images, t: &TermRow) -> Result<TermRow, NoMemory>
    requires images { AreImages eigens.now }
    ensures { IfOk result (λ r. r ≡ term_image (the_eigens eigens.now) t.now) }
{
    let items = items_image(alloc, eigens, t.items())?;
    Ok(TermRow::new(items))
}
