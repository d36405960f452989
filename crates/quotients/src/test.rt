// The divide test.
ghost use Rattle.std.specs.Prelude.{◌≡◌, [], ◌*◌, ◌<◌, ◌≤◌, length};
ghost use Rattle.algebra.specs.Residues.{Prime};
ghost use Rattle.calls.specs.Outcomes.{outcome};
ghost use Rattle.quotients.specs.Quotients.{tested};
ghost use Rattle.moduli.specs.Moduli.{limit};
ghost use Rattle.poly.specs.Valid.{Valid};
ghost use Rattle.poly.specs.Words.{records};
ghost use Rattle.refusals.specs.Rules.{input_terms};

use crate::walk_in_rooms;
use judges::prepare;
use refusals::report::Report;

// The divide test where none of 1 to 8 is due. No remainder term is ever written.
pub fn test_good(p: u64, f: &[u64], g: &[u64], q: &mut [u64], work: &mut [u64]) -> Report
    requires inputs { (Prime p) × (p ≤ limit) × (Valid p f.now) × (Valid p g.now) × (0 < records g.now) × (records g.now ≤ input_terms) }
    requires rooms { (records q.old ≤ input_terms) × (4 * records q.old ≤ length work.old) }
    ensures { outcome result q.new [] work.new
        ≡ tested p f.now g.now q.old work.old }
{
    let plan = prepare(p, f, g, true, q.len() / 2, 0);
    walk_in_rooms(&plan, q, &mut [], work)
}
