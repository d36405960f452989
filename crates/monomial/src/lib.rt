// Words of packed exponents: x in the top sixteen bits, then y, z and t, the top bit of each sixteen a guard bit.
#![tactic(auto)]

ghost use Rattle.std.specs.Prelude.{◌≡◌, true};
ghost use Rattle.monomial.specs.Layout.{base, word_of, fits, is_monomial, exponent_of, word_divides};
ghost use Rattle.field.specs.Answers.{value_of};
ghost use Rattle.monomial.specs.Answers.{pack_of, unpack_of, exponents_answer, word_product_of, word_quotient_of};

use field::Value;
use reasons::Reason;

// The number of letters.
pub const LETTERS: usize = 4;

// The largest exponent.
pub const LARGEST: u64 = 32767;

// The guard bit of each field.
const GUARDS: u64 = 0x8000_8000_8000_8000;

// What unpacking answers: reply 0 and the exponents of x, y, z and t, or the number of a refusal and zeros. The struct is C's.
#[repr(C)]
#[derive(Clone, Copy)]
pub struct Exponents {
    pub number: u64,
    pub exponents: [u64; LETTERS],
}

impl From<Result<[u64; LETTERS], Reason>> for Exponents {
    ghost from_gives = { λ answer v. v ≡ exponents_answer answer };

    fn from(answer: Result<[u64; LETTERS], Reason>) -> Exponents {
        match answer {
            Ok(exponents) => Exponents {
                number: 0,
                exponents,
            },
            Err(reason) => Exponents {
                number: reason.number(),
                exponents: [0; LETTERS],
            },
        }
    }
}

// No guard bit of the word is set.
pub fn is_monomial(word: u64) -> bool
    ensures { result ≡ is_monomial base word }
{
    word & GUARDS == 0
}

// The exponent of a letter, 0 for x to 3 for t; 0 for a letter that is not there (RULES Reading 7).
pub fn exponent(word: u64, letter: u64) -> u64
    ensures { result ≡ exponent_of base word letter }
{
    if letter > 3 {
        return 0;
    }
    (word >> (16 * (3 - letter))) & 0xffff
}

// The word of four exponents.
pub fn pack(x: u64, y: u64, z: u64, t: u64) -> Value
    ensures { result ≡ pack_of base (x, (y, (z, (t, tt)))) }
{
    try_pack(x, y, z, t).into()
}

// No bit above the fifteenth of any exponent is set just where none is over the largest.
fn try_pack(x: u64, y: u64, z: u64, t: u64) -> Result<u64, Reason>
    ensures { value_of result ≡ pack_of base (x, (y, (z, (t, tt)))) }
{
    if (x | (y | (z | t))) > LARGEST {
        return Err(Reason::BadMonomial);
    }
    Ok(word(x, y, z, t))
}

// The word of four exponents that fit.
pub fn word(x: u64, y: u64, z: u64, t: u64) -> u64
    requires { fits 16 4 (x, (y, (z, (t, tt)))) ≡ true }
    ensures { result ≡ word_of 16 4 (x, (y, (z, (t, tt)))) }
{
    x << 48 | (y << 32 | (z << 16 | t))
}

// The four exponents of a word.
pub fn unpack(word: u64) -> Exponents
    ensures { result ≡ unpack_of base word }
{
    try_unpack(word).into()
}

fn try_unpack(word: u64) -> Result<[u64; LETTERS], Reason>
    ensures { exponents_answer result ≡ unpack_of base word }
{
    if !is_monomial(word) {
        return Err(Reason::BadMonomial);
    }
    Ok([
        exponent(word, 0),
        exponent(word, 1),
        exponent(word, 2),
        exponent(word, 3),
    ])
}

// The product of two monomials. With clear guard bits a field's sum stays in its field, and is over the largest exponent just
// where it reaches the guard bit.
pub fn multiply(m: u64, n: u64) -> Result<u64, Reason>
    ensures { value_of result ≡ word_product_of base m n }
{
    if is_monomial(m | n) && is_monomial(m + n) {
        Ok(m + n)
    } else {
        Err(Reason::BigExponent)
    }
}

// Whether m divides n. A guard bit set in n keeps each field's borrow from the next, and is still there after the difference just
// where nothing was borrowed.
pub fn divides(m: u64, n: u64) -> bool
    ensures { result ≡ word_divides base m n }
{
    is_monomial(m | n) && ((n | GUARDS) - m) & GUARDS == GUARDS
}

// The monomial that times m is n.
pub fn divide(n: u64, m: u64) -> Result<u64, Reason>
    ensures { value_of result ≡ word_quotient_of base n m }
{
    if divides(m, n) {
        Ok(n - m)
    } else {
        Err(Reason::NotDivisible)
    }
}
