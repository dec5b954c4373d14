// The step conditions and the filling.
#![tactic(auto)]

mod bits;
pub mod conditions;
pub mod derive;
pub mod fill;
mod words;
