// Numbers modulo a prime p: which p are taken, and the operations that loops call, for a modulus and operands that are known to be good.
// p is a number and no type of its own: `neg_mod` and `mul_mod`, which docs/CLAIMS.md names, take any p, and a type would ask for more.
#![tactic(auto)]

ghost use Rattle.std.specs.Prelude.{◌≡◌, ◌≤◌, ◌+◌, ◌-◌, ◌%◌, ◌<◌, ◌*◌};
ghost use Rattle.algebra.specs.Residues.{is_prime, Prime, inverse};
ghost use Rattle.moduli.specs.Moduli.{limit, is_modulus, modulus_of};

// The greatest modulus.
const LIMIT: u64 = 2147483647;

// The first number whose square is over the limit.
const ROOT_END: u32 = 46341;

// Whether p is a prime in its range.
#[tactic(auto, unfolding(crate::specs::Moduli::is_modulus))]
pub fn is_modulus(p: u64) -> bool
    ensures { result ≡ is_modulus p }
{
    p <= LIMIT && is_prime(p as u32)
}

// Reply 0 where p is a modulus, else 1: a number, as RULES Reading 2 and `modulus-told` have it.
#[tactic(auto, unfolding(crate::specs::Moduli::modulus_of))]
pub fn modulus(p: u64) -> u64
    ensures { result ≡ modulus_of p }
{
    if is_modulus(p) { 0 } else { 1 }
}

// Whether p is a prime, by trial division up to its root, in 32 bits, which divide quicker than 64.
fn is_prime(p: u32) -> bool
    requires { p ≤ limit }
    ensures { result ≡ is_prime p }
{
    for d in 2..ROOT_END {
        if p < d * d {
            break;
        }
        if p % d == 0 {
            return false;
        }
    }
    2 <= p
}

// a + b, unchecked.
pub fn add_mod(p: u64, a: u64, b: u64) -> u64
    requires { (p ≤ limit) × (a < p) × (b < p) }
    ensures { result ≡ (a + b) % p }
{
    let s = a + b;
    if s < p { s } else { s - p }
}

// −a, unchecked.
pub fn neg_mod(p: u64, a: u64) -> u64
    requires { a < p }
    ensures { result ≡ (p - a) % p }
{
    if a == 0 { 0 } else { p - a }
}

// a · b, unchecked. The operands need not be reduced.
pub fn mul_mod(p: u64, a: u64, b: u64) -> u64
    requires { (0 < p) × (a ≤ limit) × (b ≤ limit) }
    ensures { result ≡ a * b % p }
{
    a * b % p
}

// The inverse of a, unchecked, by Euclid's algorithm on p and a: t and next_t times a are the same as the two last remainders.
pub fn inverse_mod(p: u64, a: u64) -> u64
    requires { (p ≤ limit) × (Prime p) × (0 < a) × (a < p) }
    ensures { result ≡ inverse p a }
{
    let mut rest = p;
    let mut next_rest = a;
    let mut t = 0;
    let mut next_t = 1;
    while 1 < next_rest {
        let q = rest / next_rest;
        let r = rest % next_rest;
        let s = (t + (p - q * next_t % p)) % p;
        rest = next_rest;
        next_rest = r;
        t = next_t;
        next_t = s;
    }
    next_t
}
