// Every case of the sheet, tried and printed.
ghost use Rattle.std.specs.Prelude.{◌≤◌, ◌≡◌, length};
ghost use Rattle.sheet.specs.Cases.{AllFit};

use crate::cases::Case;
use crate::lines::Line;
use crate::tables::SHEET;
use crate::text::print;
use std::fmt;

// How many cases were run, and how many of them are as the sheet says.
#[derive(Clone, Copy)]
pub struct Tally {
    pub cases: usize,
    pub right: usize,
}

// Every case of the sheet.
pub fn run_all() -> Tally
    ensures { (result.cases ≡ 35) × (result.right ≤ result.cases) }
{
    run(&SHEET)
}

// Cases in their order, a line each.
fn run(cases: &[Case]) -> Tally
    requires { AllFit cases.now }
    ensures { (result.cases ≡ length cases.now) × (result.right ≤ result.cases) }
{
    let mut right = 0;
    for case in cases {
        let found = case.tried();
        print(Line { case: *case, found });
        if found.right() {
            right += 1;
        }
    }
    Tally {
        cases: cases.len(),
        right,
    }
}

impl fmt::Display for Tally {
    fn fmt<W: fmt::Write>(&self, f: &mut fmt::Formatter<W>) -> fmt::Result {
        write!(f, "{} cases, {} as the sheet says", self.cases, self.right)
    }
}
