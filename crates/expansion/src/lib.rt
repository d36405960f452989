// The terms of a product, written into the room one monomial after the other, and whether an exponent of it is too large.
#![tactic(auto)]

ghost use Rattle.std.specs.Prelude.{◌≡◌, ℕ, ◌*◌, ◌^◌, ◌<◌, ◌≤◌, length};
ghost use Rattle.algebra.specs.Monomials.{exponent};
ghost use Rattle.algebra.specs.Polynomials.{largest, mul};
ghost use Rattle.moduli.specs.Moduli.{limit};
ghost use Rattle.monomial.specs.Layout.{base};
ghost use Rattle.poly.specs.Words.{records, poly_of, span};
ghost use Rattle.poly.specs.Valid.{Valid};
ghost use Rattle.refusals.specs.Rules.{input_terms};
ghost use Rattle.calls.specs.Endings.{Filled};
ghost use Rattle.tree.specs.Tree.{awaited, Live, Sides};
ghost use Rattle.expansion.specs.Found.{first_burst};

use monomial::LARGEST;
use poly::profile::measure;
use poly::room::put_term;
use tree::{Node, start, take};

// The first letter in which the largest exponents of two polynomials add up to more than the largest exponent.
pub fn burst_at(f: &[u64], g: &[u64]) -> Option<usize>
    requires { ((v : ℕ) → largest (exponent 4 v) (poly_of base f.now) < 2 ^ 16) × ((v : ℕ) → largest (exponent 4 v) (poly_of base g.now) < 2 ^ 16) }
    ensures { result ≡ first_burst (poly_of base f.now) (poly_of base g.now) }
{
    let a = measure(f).exponents;
    let b = measure(g).exponents;
    a.iter().zip(&b).position(|(x, y)| LARGEST < x + y)
}

// Writes the product into the room, and answers the number of its terms: one more than the room holds where there are more. It is a
// number past the room, and no error, since `Filled` says it so of sums and products; `room_reply` makes the answer of it.
pub fn expand(p: u64, rows: &[u64], cols: &[u64], room: &mut [u64], work: &mut [u64]) -> usize
    requires within { (0 < p) × (p ≤ limit) × (records rows.now ≤ records cols.now) × (records cols.now ≤ input_terms) }
    requires lent { (4 * records rows.now ≤ length work.old) × (Valid p rows.now) × (Valid p cols.now) }
    ensures { Filled p (mul (span rows.now 0 (records rows.now)) (span cols.now 0 (records cols.now)))
        room.old room.new result }
{
    if rows.len() / 2 == 0 {
        return 0;
    }
    start(rows, cols, work);
    fill(p, rows, cols, room, work)
}

// Writes what waits in the tree into the room, one monomial a turn, and answers the number of terms as `expand` does.
fn fill(p: u64, rows: &[u64], cols: &[u64], room: &mut [u64], work: &mut [u64]) -> usize
    requires within { (0 < p) × (p ≤ limit) × (0 < records rows.now) }
    requires valid { (Valid p cols.now) × (Sides rows.now cols.now p) }
    requires live { Live rows.now cols.now work.old }
    ensures { Filled p (awaited rows.now cols.now work.old 0 (records rows.now))
        room.old room.new result }
{
    let mut n = 0;
    let mut k = Node::at(work, 1).key;
    while k != 0 {
        let c = take(p, rows, cols, work, k);
        if c != 0 {
            if n == room.len() / 2 {
                return n + 1;
            }
            put_term(room, n, k - 1, c);
            n += 1;
        }
        k = Node::at(work, 1).key;
    }
    n
}
