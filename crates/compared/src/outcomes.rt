// Whether a call answered and left what a row says.
ghost use Rattle.std.specs.Prelude.{◌≡◌, length};
ghost use Rattle.calls.specs.Outcomes.{outcome};
ghost use Rattle.compared.specs.Compared.{same_outcome, said};

use crate::words::{holds, rest_of, same_report};
use refusals::report::Report;

// What is written where nothing is, and an array that a call does not have.
pub const ZERO: [u64; 0] = [];

// The report, the outputs and the work array, beside the report that the row says and the words that it says are written.
pub fn outcome_said(
    report: Report,
    first: &[u64],
    second: &[u64],
    work: &[u64],
    says: Report,
    written: &[u64],
    others: &[u64],
) -> bool
    ensures { result
        ≡ same_outcome
        (outcome report first.now second.now work.now)
        (said says written.now others.now
        (length first.now) (length second.now) (length work.now)) }
{
    let rest = rest_of(says.number);
    same_report(report, says)
        && holds(first, written, rest)
        && holds(second, others, rest)
        && holds(work, &ZERO, rest)
}
