// The step conditions, the filling and demand 3 are a theory, all of it in specs/. What runs stands in crate filler.
#![tactic(auto)]
