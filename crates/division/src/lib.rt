// Division with remainder, and the divide test.
#![tactic(auto)]

pub mod division;
pub mod rules;
pub mod test;
