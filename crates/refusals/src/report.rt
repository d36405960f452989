// The report that every call on polynomials answers.
ghost use Rattle.std.specs.Prelude.{◌≡◌, eqb};
ghost use Rattle.refusals.specs.Reports.{refusal, done, or_else};

use numbers::choose;

// The number, the operand that it blames, a term index, and the terms of the first and the second output. The struct is C's, so that a
// reply is a number in it; `Reason` names those of today. An operand is a place in a call and no kind: RULES Report counts them.
#[repr(C)]
#[derive(Clone, Copy, Default, PartialEq, Eq)]
pub struct Report {
    pub number: u64,
    pub operand: u64,
    pub index: u64,
    pub first: u64,
    pub second: u64,
}

// A refusal of an operand at a term, by the number of its reply.
pub fn refusal(number: u64, operand: u64, index: u64) -> Report
    ensures { result ≡ refusal number operand index }
{
    Report {
        number,
        operand,
        index,
        ..Report::default()
    }
}

// Reply 0 with the terms of the outputs.
pub fn done(first: u64, second: u64) -> Report
    ensures { result ≡ done first second }
{
    Report {
        first,
        second,
        ..Report::default()
    }
}

impl Report {
    // Reply 0: nothing is refused.
    pub fn is_done(self) -> bool
        ensures { result ≡ eqb self.number 0 }
    {
        self.number == 0
    }
}

// The first of two reports if it refuses, else the second. It is chosen number by number, and stays so: a struct that is chosen as a
// whole is copied through memory, and a call asks for some twenty refusals (docs/DECISIONS.md has the figures).
pub fn or_else(a: Report, b: Report) -> Report
    ensures { result ≡ or_else a b }
{
    let passed = a.is_done();
    Report {
        number: choose(passed, b.number, a.number),
        operand: choose(passed, b.operand, a.operand),
        index: choose(passed, b.index, a.index),
        first: choose(passed, b.first, a.first),
        second: choose(passed, b.second, a.second),
    }
}
