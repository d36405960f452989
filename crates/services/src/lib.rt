// The smaller services: the check of a polynomial, its profile, the run of a power of x.
#![tactic(auto)]

pub mod check;
pub mod profile;
pub mod run;
