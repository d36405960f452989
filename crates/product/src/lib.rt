// The product: the shorter factor's terms are the rows of the tree, the longer factor's terms its columns.
#![tactic(auto)]

ghost use Rattle.std.specs.Prelude.{◌≡◌, [], ◌*◌, ◌<◌, ◌≤◌, length};
ghost use Rattle.moduli.specs.Moduli.{limit};
ghost use Rattle.poly.specs.Words.{records};
ghost use Rattle.poly.specs.Valid.{Valid};
ghost use Rattle.refusals.specs.Rules.{input_terms};
ghost use Rattle.calls.specs.Outcomes.{outcome};
ghost use Rattle.product.specs.Products.{product_of, multiplied};

use calls::ending::{leave, room_reply, told};
use calls::inputs::two_inputs;
use expansion::{burst_at, expand};
use poly::room::clear;
use reasons::Reason;
use refusals::report::{Report, done, or_else};
use refusals::rules::{ROOM_TERMS, work_rule};

// The product of two polynomials, with four work words for each term of the shorter factor.
pub fn product(p: u64, a: &[u64], b: &[u64], room: &mut [u64], work: &mut [u64]) -> Report
    ensures { outcome result room.new [] work.new
        ≡ product_of p a.now b.now room.old work.old }
{
    let least = 4 * (a.len() / 2).min(b.len() / 2);
    let last = or_else(work_rule(least, work), done(0, 0));
    let due = two_inputs(p, a, b).room(3, ROOM_TERMS, room).first(p, last);
    if !due.is_done() {
        return due;
    }
    if a.len() <= b.len() {
        multiply(p, a, b, room, work)
    } else {
        multiply(p, b, a, room, work)
    }
}

// The product where none of 1 to 8 is due and the first factor is not the longer.
fn multiply(p: u64, rows: &[u64], cols: &[u64], room: &mut [u64], work: &mut [u64]) -> Report
    requires within { (0 < p) × (p ≤ limit) × (records rows.now ≤ records cols.now) × (records cols.now ≤ input_terms) }
    requires lent { (4 * records rows.now ≤ length work.old) × (Valid p rows.now) × (Valid p cols.now) }
    ensures { outcome result room.new [] work.new
        ≡ multiplied p rows.now cols.now room.old work.old }
{
    let end = if burst_at(rows, cols).is_some() {
        Err(Reason::BigExponent)
    } else {
        let n = expand(p, rows, cols, room, work);
        room_reply(n, room)
    };
    clear(work, 0);
    leave(room, end.ok());
    told(end.map(|n| (n, 0)))
}
