// Makers and readers of rows: what the prover hands to the check.
#![tactic(auto)]

pub mod assembly;
pub mod branch;
pub mod records;
pub mod row;
mod upper;
