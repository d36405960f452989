// One step of the walk: the greatest monomial of what remains goes to the quotient or to the remainder, or was cancelled.
#![tactic(auto)]

ghost use Rattle.std.specs.Prelude.{◌≡◌, ℕ, suc, ◌+◌, ◌<◌, ◌^◌, max};
ghost use Rattle.poly.specs.Words.{records, word_at};
ghost use Rattle.tree.specs.Tree.{Live};
ghost use Rattle.poly.specs.Keys.{key_at};
ghost use Rattle.steps.specs.Walking.{Walking, RowPut, Stepped};

use heads::take_head;
use judges::{Plan, judge_quotient, judge_remainder};
use moduli::mul_mod;
use poly::room::put_term;
use reasons::Reason;
use tree::add;

// The place in the dividend, and the quotient and remainder terms written.
#[derive(Clone, Copy)]
pub struct State {
    pub next: usize,
    pub quotient: usize,
    pub remainder: usize,
}

// Handles the greatest monomial of what remains, whose key is k, unless a judge stops the walk there. Rooms and work are what a host
// lends, three arguments in every call.
pub fn step(
    plan: &Plan<'_>,
    q: &mut [u64],
    r: &mut [u64],
    work: &mut [u64],
    s: State,
    k: u64,
) -> Result<State, Reason>
    requires head { (0 < k) × (k ≡ max (key_at plan.now.f.now s.next) (word_at work.old 1)) × (s.quotient < plan.now.judge.quotients → s.quotient < records q.old) }
    requires walking { Walking plan.now q.old r.old work.old s.next s.quotient s.remainder }
    ensures { Stepped plan.now q.old r.old work.old k q.new r.new work.new result }
{
    let p = plan.p;
    let g = plan.g;
    let h = take_head(p, plan.f, g, q, work, s.next, k);
    let on = State { next: h.next, ..s };
    if h.coef == 0 {
        return Ok(on);
    }
    let monomial = k - 1;
    if monomial::divides(g[0], monomial) {
        let word = monomial - g[0];
        judge_quotient(plan.judge, word, s.quotient)?;
        let coef = mul_mod(p, h.coef, plan.inverse);
        put_row(g, q, work, s.quotient, word, coef, k);
        return Ok(State {
            quotient: s.quotient + 1,
            ..on
        });
    }
    judge_remainder(plan.judge, s.remainder)?;
    put_term(r, s.remainder, monomial, h.coef);
    Ok(State {
        remainder: s.remainder + 1,
        ..on
    })
}

// Writes a quotient term and lets its products wait, from the divisor's second term on.
fn put_row(g: &[u64], q: &mut [u64], work: &mut [u64], n: usize, word: u64, coef: u64, k: u64)
    requires within { (n < records q.old) × (records q.old < 2 ^ 32) × (0 < records g.now) × (records g.now < 2 ^ 32)
        × ((i : ℕ) → suc i < records g.now → word_at g.now (suc i) < word_at g.now i) }
    requires vacant { (word_at work.old (records q.old + n) ≡ 0) × (word + word_at g.now 0 + 1 ≡ k) × (word_at work.old 1 < k) }
    requires live { Live q.old g.now work.old }
    ensures { RowPut g.now q.old work.old n word coef k q.new work.new }
{
    put_term(q, n, word, coef);
    if g.len() / 2 == 1 {
        return;
    }
    add(q, g, work, n, 1, k);
}
