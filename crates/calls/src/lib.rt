// What every call on polynomials shares: two inputs, and how it ends.
#![tactic(auto)]

pub mod ending;
pub mod inputs;
