// Whether the engine does what a row of the sheet says: it is lent arrays full of other words, and the report and every word that it
// leaves are compared. Nothing is printed here: the program `sheet` does that.
#![tactic(auto)]

pub mod fields;
pub mod polys;

// A row tried: the number that the call answered, and whether its report and every word that it left are as the row says. Both are
// told of every row, so that neither is an Option, and the number is that of C's report.
#[derive(Clone, Copy)]
pub struct Tried {
    pub number: u64,
    pub right: bool,
}
