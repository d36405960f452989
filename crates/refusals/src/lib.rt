// The report that every call answers, and the refusals 1 to 8.
#![tactic(auto)]

pub mod report;
pub mod rules;
