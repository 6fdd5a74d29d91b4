//! The prefixed sequent calculus of classical, intuitionistic and modal first-order logic, in the
//! uniform notation of Fitting (Proof Methods for Modal and Intuitionistic Logics) with the
//! prefixes of Wallen (Automated Deduction in Nonclassical Logics). A derivation starts from the
//! problem's formula, to be shown at the root.
#![tactic(auto)]

mod addition;
mod apply_fault;
mod atom;
mod condition;
mod derivation;
mod entry;
mod form;
mod leaf;
mod names;
mod numbered;
mod rules;
mod step;

pub use addition::{Addition, addition_of};
pub use apply_fault::ApplyFault;
pub use condition::arguments_fit;
pub use derivation::Derivation;
pub use entry::{Entry, Sequent};
pub use form::{ModalForm, TermForm};
pub use leaf::{eigen_named, spare_named};
pub use names::{EigenList, Home, Names, SpareList};
pub use rules::{Children, StepFault, apply};
pub use step::{ModalArg, RowArg, Step, StepList, TermArg};
