// What a walk computes once, and the judges that stop it.
#![tactic(auto)]

ghost use Rattle.std.specs.Prelude.{◌≡◌, true, ◌<◌, ◌≤◌, ◌^◌};
ghost use Rattle.algebra.specs.Residues.{Prime, pick};
ghost use Rattle.reasons.specs.Reasons.{number_of, reply_of};
ghost use Rattle.moduli.specs.Moduli.{limit};
ghost use Rattle.monomial.specs.Layout.{base, is_monomial};
ghost use Rattle.poly.specs.Words.{records};
ghost use Rattle.poly.specs.Valid.{Valid};
ghost use Rattle.algebra.proofs.Primes.{Prime-prop};
ghost use Rattle.std.proofs.Props.{props};
ghost use Rattle.judges.specs.Plans.{is_test, quotient_reply, remainder_reply, Ready};

use moduli::inverse_mod;
use poly::profile::largest_word;
use reasons::Reason;

// What stops a walk: the word of the divisor's largest exponents; in the divide test that of the dividend's, which bound them; the
// terms that the rooms can hold.
#[derive(Clone, Copy)]
pub struct Judge {
    pub maxima: u64,
    pub bounds: Option<u64>,
    pub quotients: usize,
    pub remainders: usize,
}

// A division of f by g: inputs that were found good, and what is computed of them once, the inverse of the divisor's lead
// coefficient and the judge.
#[derive(Clone, Copy)]
pub struct Plan<'a> {
    pub p: u64,
    pub f: &'a [u64],
    pub g: &'a [u64],
    pub inverse: u64,
    pub judge: Judge,
    pub ghost ready: { Ready p f.now g.now inverse judge } by { Prim.hlevel (props, Prime-prop) },
}

// The plan of a call, for inputs that were found good. Its parameters are those that docs/CLAIMS.md names it with.
pub fn prepare<'a>(
    p: u64,
    f: &'a [u64],
    g: &'a [u64],
    test: bool,
    quotients: usize,
    remainders: usize,
) -> Plan<'a>
    requires within { (Prime p) × (p ≤ limit) × (0 < records g.now) × (records g.now < 2 ^ 32) }
    requires valid { (Valid p f.now) × (Valid p g.now) }
    ensures inputs { (result.p ≡ p) × (result.f.now ≡ f.now) × (result.g.now ≡ g.now) }
    ensures judge { (is_test result.judge ≡ test) × (result.judge.quotients ≡ quotients) × (result.judge.remainders ≡ remainders) }
{
    let judge = Judge {
        maxima: largest_word(g),
        bounds: if test { Some(largest_word(f)) } else { None },
        quotients,
        remainders,
    };
    Plan {
        p,
        f,
        g,
        inverse: inverse_mod(p, g[1]),
        judge,
    }
}

// Whether a quotient term may be written. The sum of two words has the sums of their exponents.
pub fn judge_quotient(judge: Judge, word: u64, terms: usize) -> Result<(), Reason>
    requires { (is_monomial base word ≡ true) × (is_monomial base judge.maxima ≡ true) }
    ensures { reply_of result ≡ quotient_reply judge.maxima judge.bounds judge.quotients word terms }
{
    let sum = word + judge.maxima;
    match judge.bounds {
        Some(bounds) => ok_if(monomial::divides(sum, bounds), Reason::NotDivisible)?,
        None => ok_if(monomial::is_monomial(sum), Reason::BigExponent)?,
    }
    ok_if(terms < judge.quotients, Reason::NoRoom)
}

// Whether a remainder term may be written.
pub fn judge_remainder(judge: Judge, terms: usize) -> Result<(), Reason>
    ensures { reply_of result ≡ remainder_reply (is_test judge) judge.remainders terms }
{
    ok_if(judge.bounds.is_none(), Reason::NotDivisible)?;
    ok_if(terms < judge.remainders, Reason::NoRemainderRoom)
}

// The reason given where a test did not pass.
fn ok_if(passed: bool, reason: Reason) -> Result<(), Reason>
    ensures { reply_of result ≡ pick passed 0 (number_of reason) }
{
    if passed { Ok(()) } else { Err(reason) }
}
