// What is wrong with the terms of a slice: guard bits, order, coefficients.
#![tactic(auto)]

ghost use Rattle.std.specs.Prelude.{◌≡◌, ◌*◌, ◌+◌, ◌<◌, length};
ghost use Rattle.monomial.specs.Layout.{base};
ghost use Rattle.faults.specs.Faults.{guard_at, order_at, bad_coef_at, faults_of};

use numbers::choose;

// The first term with each kind of fault; the number of terms where there is none. No Option, which was tried and took twice as long for
// each term: a number is chosen without a branch.
#[derive(Clone, Copy)]
pub struct Faults {
    pub guard: u64,
    pub order: u64,
    pub coef: u64,
}

// The places of 4, 5 and 6 in one pass, from the last term down, so that the lowest place stands at the end.
pub fn find_faults(p: u64, s: &[u64]) -> Faults
    ensures { result ≡ faults_of base p s.now }
{
    let n = s.len() / 2;
    let mut guard = n as u64;
    let mut order = n as u64;
    let mut coef = n as u64;
    for i in (0..n).rev() {
        let place = i as u64;
        guard = choose(guard_at(s, i), place, guard);
        order = choose(order_at(s, i), place, order);
        coef = choose(bad_coef_at(p, s, i), place, coef);
    }
    Faults { guard, order, coef }
}

// A term is named by its place, as the loop counts it.
#[tactic(auto, unfolding(crate::specs::Faults::guard_at))]
fn guard_at(s: &[u64], i: usize) -> bool
    requires { 2 * i < length s.now }
    ensures { result ≡ guard_at base s.now i }
{
    !monomial::is_monomial(s[2 * i])
}

fn order_at(s: &[u64], i: usize) -> bool
    requires { 2 * i < length s.now }
    ensures { result ≡ order_at s.now i }
{
    0 < i && s[2 * (i - 1)] <= s[2 * i]
}

#[tactic(auto, unfolding(crate::specs::Faults::bad_coef_at))]
fn bad_coef_at(p: u64, s: &[u64], i: usize) -> bool
    requires { 2 * i + 1 < length s.now }
    ensures { result ≡ bad_coef_at p s.now i }
{
    let c = s[2 * i + 1];
    c == 0 || p <= c
}
