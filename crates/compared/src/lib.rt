// Reports and arrays compared, word by word, with what a row of the sheet says.
#![tactic(auto)]

pub mod outcomes;
pub mod words;
