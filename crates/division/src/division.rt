// Division with remainder.
ghost use Rattle.std.specs.Prelude.{◌≡◌};
ghost use Rattle.calls.specs.Outcomes.{outcome};
ghost use Rattle.division.specs.Division.{divide_of};

use crate::rules::last_rules;
use calls::inputs::two_inputs;
use quotients::division::divide_good;
use refusals::report::Report;
use refusals::rules::{INPUT_TERMS, ROOM_TERMS};

// The quotient and the remainder of f by g in the rooms q and r, with four work words for each term of the quotient room.
pub fn divide(
    p: u64,
    f: &[u64],
    g: &[u64],
    q: &mut [u64],
    r: &mut [u64],
    work: &mut [u64],
) -> Report
    ensures { outcome result q.new r.new work.new
        ≡ divide_of p f.now g.now q.old r.old work.old }
{
    let due = two_inputs(p, f, g)
        .room(3, INPUT_TERMS, q)
        .room(4, ROOM_TERMS, r)
        .first(p, last_rules(g, q, work));
    if !due.is_done() {
        return due;
    }
    divide_good(p, f, g, q, r, work)
}
