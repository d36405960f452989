// The divide test.
ghost use Rattle.std.specs.Prelude.{◌≡◌, []};
ghost use Rattle.calls.specs.Outcomes.{outcome};
ghost use Rattle.division.specs.Division.{test_of};

use crate::rules::last_rules;
use calls::inputs::two_inputs;
use quotients::test::test_good;
use refusals::report::Report;
use refusals::rules::INPUT_TERMS;

// Whether g divides f, with the quotient in the room q: 0 for yes and 12 for no.
pub fn divides(p: u64, f: &[u64], g: &[u64], q: &mut [u64], work: &mut [u64]) -> Report
    ensures { outcome result q.new [] work.new
        ≡ test_of p f.now g.now q.old work.old }
{
    let due = two_inputs(p, f, g)
        .room(3, INPUT_TERMS, q)
        .first(p, last_rules(g, q, work));
    if !due.is_done() {
        return due;
    }
    test_good(p, f, g, q, work)
}
