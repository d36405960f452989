// Division with remainder.
ghost use Rattle.std.specs.Prelude.{◌≡◌, ◌*◌, ◌<◌, ◌≤◌, length};
ghost use Rattle.algebra.specs.Residues.{Prime};
ghost use Rattle.calls.specs.Outcomes.{outcome};
ghost use Rattle.quotients.specs.Quotients.{divided};
ghost use Rattle.moduli.specs.Moduli.{limit};
ghost use Rattle.poly.specs.Valid.{Valid};
ghost use Rattle.poly.specs.Words.{records};
ghost use Rattle.refusals.specs.Rules.{input_terms};

use crate::walk_in_rooms;
use judges::prepare;
use refusals::report::Report;

// The division where none of 1 to 8 is due.
pub fn divide_good(
    p: u64,
    f: &[u64],
    g: &[u64],
    q: &mut [u64],
    r: &mut [u64],
    work: &mut [u64],
) -> Report
    requires inputs { (Prime p) × (p ≤ limit) × (Valid p f.now) × (Valid p g.now) × (0 < records g.now) × (records g.now ≤ input_terms) }
    requires rooms { (records q.old ≤ input_terms) × (4 * records q.old ≤ length work.old) }
    ensures { outcome result q.new r.new work.new
        ≡ divided p f.now g.now q.old r.old work.old }
{
    let plan = prepare(p, f, g, false, q.len() / 2, r.len() / 2);
    walk_in_rooms(&plan, q, r, work)
}
