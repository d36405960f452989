// The greatest monomial of what remains: the dividend's next term, and all that waits in the tree at the same monomial.
#![tactic(auto)]

ghost use Rattle.std.specs.Prelude.{◌≡◌, ◌<◌, ◌≤◌, ◌^◌, max};
ghost use Rattle.moduli.specs.Moduli.{limit};
ghost use Rattle.poly.specs.Words.{records, word_at};
ghost use Rattle.poly.specs.Valid.{Valid};
ghost use Rattle.tree.specs.Tree.{Live, Sides, Taken};
ghost use Rattle.poly.specs.Keys.{key_at};
ghost use Rattle.heads.specs.Remaining.{Headed};

use moduli::{add_mod, neg_mod};
use poly::keys::{Head, head_at, key_at};
use tree::take;

// Takes the greatest monomial, whose key is given, out of what remains. It is lent what docs/CLAIMS.md names it with, and no plan.
pub fn take_head(
    p: u64,
    f: &[u64],
    g: &[u64],
    q: &[u64],
    work: &mut [u64],
    i: usize,
    k: u64,
) -> Head
    requires within { (0 < p) × (p ≤ limit) × (0 < k) × (k ≡ max (key_at f.now i) (word_at work.old 1)) × (i ≤ records f.now) }
    requires valid { (Valid p f.now) × (Valid p g.now) × (Sides q.now g.now p) }
    requires live { (Live q.now g.now work.old) × (records q.now ≡ 0 → word_at work.old 1 ≡ 0) }
    ensures { Headed p f.now g.now q.now work.old i k work.new result.next result.coef }
{
    let minus = neg_mod(p, take_at(p, q, g, work, k));
    let mut h = head_at(f, i, k);
    h.coef = add_mod(p, h.coef, minus);
    h
}

// Takes all that waits at key k; in an empty quotient room nothing ever waits.
fn take_at(p: u64, q: &[u64], g: &[u64], work: &mut [u64], k: u64) -> u64
    requires within { (0 < p) × (p ≤ limit) × (0 < k) × (Sides q.now g.now p) }
    requires live { (Live q.now g.now work.old) × (records q.now ≡ 0 → word_at work.old 1 ≡ 0) }
    ensures { (Taken p q.now g.now k work.old work.new result) × (records q.now ≡ 0 → word_at work.new 1 ≡ 0) }
{
    if q.len() / 2 == 0 {
        return 0;
    }
    take(p, q, g, work, k)
}

// The key at the root; 0 where the work array has no root.
pub fn root(work: &[u64]) -> u64
    ensures { result ≡ word_at work.now 1 }
{
    work.get(2).copied().unwrap_or(0)
}

// The greatest key of what remains; 0 where nothing does.
pub fn greatest_key(f: &[u64], work: &[u64], i: usize) -> u64
    requires { i < records f.now → word_at f.now i < 2 ^ 63 }
    ensures { result ≡ max (key_at f.now i) (word_at work.now 1) }
{
    key_at(f, i).max(root(work))
}
