// The profile of a polynomial.
ghost use Rattle.std.specs.Prelude.{◌≡◌, true};
ghost use Rattle.monomial.specs.Layout.{base, fits, word_of};
ghost use Rattle.poly.specs.Words.{poly_of};
ghost use Rattle.poly.specs.Profiles.{measure_of, maxima};

use monomial::{LETTERS, exponent, word};

// The term count, the largest exponents of x, y, z and t, and the largest total degree.
#[repr(C)]
#[derive(Clone, Copy, Default)]
pub struct Profile {
    pub terms: u64,
    pub exponents: [u64; LETTERS],
    pub total: u64,
}

// The profile of the terms of any slice, unchecked.
pub fn measure(s: &[u64]) -> Profile
    ensures { result ≡ measure_of s.now }
{
    let (records, _) = s.as_chunks::<2>();
    let mut x: u64 = 0;
    let mut y: u64 = 0;
    let mut z: u64 = 0;
    let mut t: u64 = 0;
    let mut total: u64 = 0;
    for [word, _] in records {
        let word = *word;
        let ex = exponent(word, 0);
        let ey = exponent(word, 1);
        let ez = exponent(word, 2);
        let et = exponent(word, 3);
        x = x.max(ex);
        y = y.max(ey);
        z = z.max(ez);
        t = t.max(et);
        total = total.max(ex + ey + ez + et);
    }
    Profile {
        terms: records.len() as u64,
        exponents: [x, y, z, t],
        total,
    }
}

// The word of the largest exponents of a polynomial.
pub fn largest_word(s: &[u64]) -> u64
    requires { fits 16 4 (maxima (poly_of base s.now)) ≡ true }
    ensures { result ≡ word_of 16 4 (maxima (poly_of base s.now)) }
{
    let [x, y, z, t] = measure(s).exponents;
    word(x, y, z, t)
}
