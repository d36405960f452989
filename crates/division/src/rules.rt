// The last two refusals of division and of the divide test.
ghost use Rattle.std.specs.Prelude.{◌≡◌};
ghost use Rattle.refusals.specs.Reports.{none, first_or};
ghost use Rattle.division.specs.Division.{last_rules};

use refusals::report::{Report, or_else};
use refusals::rules::{divisor_rule, work_rule};

// 7 and 8: a divisor that is zero, and too short a work array.
pub fn last_rules(g: &[u64], q: &[u64], work: &[u64]) -> Report
    ensures { result ≡ first_or (last_rules g.now q.now work.now) none }
{
    or_else(divisor_rule(g), work_rule(4 * (q.len() / 2), work))
}
