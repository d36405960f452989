// The walk in the rooms of a call: division and divide test where none of the refusals 1 to 8 is due.
#![tactic(auto)]

ghost use Rattle.std.specs.Prelude.{◌≡◌, ◌*◌, ◌≤◌, length};
ghost use Rattle.calls.specs.Outcomes.{outcome};
ghost use Rattle.quotients.specs.Planned.{walked};
ghost use Rattle.poly.specs.Words.{records};
ghost use Rattle.refusals.specs.Rules.{input_terms};

use calls::ending::{leave, told};
use judges::Plan;
use poly::room::clear;
use refusals::report::Report;
use walk::run;

pub mod division;
pub mod test;

// Walks in the rooms of a call. The quotient room is cleared before, since its records are the rows of the tree. What is asked of rooms
// and inputs is asked by clauses, as docs/CLAIMS.md has the two calls that come here.
fn walk_in_rooms(plan: &Plan<'_>, q: &mut [u64], r: &mut [u64], work: &mut [u64]) -> Report
    requires planned { (plan.now.judge.quotients ≡ records q.old) × (plan.now.judge.remainders ≡ records r.old) }
    requires rooms { (records q.old ≤ input_terms) × (4 * records q.old ≤ length work.old) }
    ensures { outcome result q.new r.new work.new
        ≡ walked plan.now q.old r.old work.old }
{
    clear(q, 0);
    let end = run(plan, q, r, work);
    clear(work, 0);
    leave(q, end.ok().map(|s| s.quotient));
    leave(r, end.ok().map(|s| s.remainder));
    told(end.map(|s| (s.quotient, s.remainder)))
}
