//! Terms of steps.

ghost use Rattle.std.specs.Prelude.{◌≡◌, IfOk};
ghost use Rattle.term_table.specs.SharedTerm.{the_shared_term};
ghost use Rattle.term_table.specs.Table.{the_table_term};

use crate::table::{TableTerm, TermTable};
use crate::walk::items_of;
use cop_base::NoMemory;
use formula_text::TermRow;
use std::alloc::Global;
use std::rc::Rc;

/// A term in a row of its own, or over a table that other terms share.
#[derive(Drop)]
pub enum SharedTerm {
    Row(TermRow),
    Table(Rc<TermTable>, TableTerm),
}

fn table_row(alloc: Global, table: &TermTable, term: TableTerm) -> Result<TermRow, NoMemory>
    ensures { IfOk result (λ row. row ≡ the_table_term table.now term) }
{
    let items = items_of(alloc, table, term)?;
    Ok(TermRow::new(items))
}

impl SharedTerm {
    /// The term in a row of its own.
    pub fn row(&self, alloc: Global) -> Result<TermRow, NoMemory>
        ensures { IfOk result (λ row. row ≡ the_shared_term self.now) }
    {
        match self {
            SharedTerm::Row(row) => row.copy(alloc),
            SharedTerm::Table(table, term) => table_row(alloc, table, *term),
        }
    }
}
