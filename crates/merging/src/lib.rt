// Merging: two falling lists of terms, one monomial a turn.
#![tactic(auto)]

ghost use Rattle.std.specs.Prelude.{◌≡◌, ◌+◌, ◌*◌, ◌<◌, ◌≤◌, ◌^◌, length};
ghost use Rattle.algebra.specs.Polynomials.{signed_coef};
ghost use Rattle.moduli.specs.Moduli.{limit};
ghost use Rattle.poly.specs.Words.{records, word_at};
ghost use Rattle.poly.specs.Valid.{Valid};
ghost use Rattle.calls.specs.Endings.{Filled};
ghost use Rattle.merging.specs.Merging.{unmerged, front_at, Greatest};

use moduli::{add_mod, neg_mod};
use numbers::choose;
use poly::room::put_term;

// The greatest monomial that is left of two inputs, its coefficient, and the places in both behind it.
#[derive(Clone, Copy)]
pub struct Lead {
    pub word: u64,
    pub coef: u64,
    pub first: usize,
    pub second: usize,
}

// The record in front: its key and its coefficient, both 0 behind the last. They stay numbers, and no Option, since the greater key is
// chosen without a branch (docs/DECISIONS.md, "A merge chooses without a branch").
#[derive(Clone, Copy)]
pub struct Front {
    pub key: u64,
    pub coef: u64,
}

// Merges two inputs that were found good into the room, and answers the number of terms: one more than the room holds where there
// are more. It stays a count, as `Filled` says it of `expansion` too: `calls::ending::room_reply` makes the reply of it.
pub fn merge(p: u64, a: &[u64], b: &[u64], minus: bool, room: &mut [u64]) -> usize
    requires within { (0 < p) × (p ≤ limit) × (length room.old ≡ 2 * records room.old) }
    requires valid { (Valid p a.now) × (Valid p b.now) }
    ensures { Filled p (unmerged p minus a.now b.now 0 0) room.old room.new result }
{
    let terms = a.len() / 2 + b.len() / 2;
    let most = room.len() / 2;
    // The places are counted, and no iterators: which input moves is found in each turn, and may be both.
    let mut i: usize = 0;
    let mut j: usize = 0;
    let mut n: usize = 0;
    while i + j < terms {
        let next = greatest_left(p, a, b, minus, i, j);
        i = next.first;
        j = next.second;
        if next.coef != 0 {
            if n == most {
                return n + 1;
            }
            put_term(room, n, next.word, next.coef);
            n += 1;
        }
    }
    n
}

// The greatest monomial that is left of a from record i on and of b from record j on.
fn greatest_left(p: u64, a: &[u64], b: &[u64], minus: bool, i: usize, j: usize) -> Lead
    requires within { (0 < p) × (p ≤ limit) × (i ≤ records a.now) × (j ≤ records b.now) × (i + j < records a.now + records b.now) }
    requires valid { (Valid p a.now) × (Valid p b.now) }
    ensures { Greatest p minus a.now b.now i j result }
{
    let x = front_at(a, i);
    let y = front_at(b, j);
    let d = signed_coef(p, minus, y.coef);
    if x.key == y.key {
        return Lead {
            word: x.key - 1,
            coef: add_mod(p, x.coef, d),
            first: i + 1,
            second: j + 1,
        };
    }
    // Which of two is greater cannot be foretold, so that it is chosen without a branch.
    let ahead = y.key < x.key;
    Lead {
        word: x.key.max(y.key) - 1,
        coef: choose(ahead, x.coef, d),
        first: i + usize::from(ahead),
        second: j + usize::from(!ahead),
    }
}

// The record in front of a slice that was read up to it.
fn front_at(s: &[u64], i: usize) -> Front
    requires { i < records s.now → word_at s.now i < 2 ^ 63 }
    ensures { result ≡ front_at s.now i }
{
    if i < s.len() / 2 {
        Front {
            key: s[2 * i] + 1,
            coef: s[2 * i + 1],
        }
    } else {
        Front { key: 0, coef: 0 }
    }
}

// c, or with `minus` −c. It is asked by a flag and no closure, as `signed_coef` and `merge`'s contract have it.
fn signed_coef(p: u64, minus: bool, c: u64) -> u64
    requires { c < p }
    ensures { result ≡ signed_coef p minus c }
{
    if minus { neg_mod(p, c) } else { c }
}
