//! What source items mean in a structure in which `=` is identity, and that a problem of files means what their items do. Definitions
//! and laws, without code.
#![tactic(auto)]
