// Runs the examples of RULES Sheet through the engine, and prints a line for each case: its row, the call, the modulus, the
// polynomials, the reply, and whether the report and every word lent are as the sheet says. The last line counts the cases. What the
// program has to print is stored beside it, and the gate compares.
#![tactic(auto)]

mod cases;
mod lines;
mod random;
mod run;
mod tables;
mod text;

fn main() {
    let tally = run::run_all();
    text::print(tally);
}
