//! What a list of choices came to.

use tableau_core::Tableau;

/// What a list of choices came to.
pub(crate) enum Visit {
    On,
    Closed(Tableau),
    Steps,
}
