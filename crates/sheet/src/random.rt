// Row 11 on random input: polynomials of 1 to 12 terms, each divided by itself.
ghost use Rattle.std.specs.Prelude.{◌<◌, ◌≤◌, ◌≡◌, [], ◌∷◌};
ghost use Rattle.refusals.specs.Reports.{done};
ghost use Rattle.claims.specs.Sheet.{right};
ghost use Rattle.rows.specs.Cases.{division_row};

use crate::tables::{NIL, ONE};
use refusals::report::done;
use rows::polys::division_tried;

pub const SEED: u64 = 20261115;

pub const DRAWS: usize = 400;

// How the drawing stands: the modulus, and where Lehmer's generator is.
#[derive(Drop)]
struct Drawing {
    p: u64,
    seed: u64,
    ghost above_one: { 1 < p },
}

// How many of the polynomials drawn give quotient 1 and remainder zero.
pub fn draws(p: u64) -> usize
    requires { 1 < p }
    ensures { result ≤ 400 }
{
    let mut drawing = Drawing { p, seed: SEED };
    (0..DRAWS).filter(|_| drawing.draw()).count()
}

impl Drawing {
    fn next(&mut self) -> u64
        ensures below { result < 2147483647 }
        ensures same { self.new.p ≡ self.old.p }
    {
        self.seed = (self.seed % 2147483647) * 48271 % 2147483647;
        self.seed
    }

    // Whether one polynomial more does.
    fn draw(&mut self) -> bool {
        let mut words = [0; 24];
        let terms = 1 + (self.next() % 12) as usize;
        let f = &mut words[..2 * terms];
        self.fill(f);
        by_itself(self.p, f)
    }

    // From 1 to p − 1.
    fn coefficient(&mut self) -> u64
        ensures { (0 < result) × (result < self.old.p) }
    {
        1 + self.next() % (self.p - 1)
    }

    // Fills an array with a polynomial. From the last term to the first the exponents of x and y, taken as one number, grow;
    // coefficients are 1 to p − 1.
    fn fill(&mut self, f: &mut [u64]) {
        let mut xy = 0;
        for term in f.chunks_exact_mut(2).rev() {
            xy = grown(xy, self.next());
            term[0] = word(xy, self.next());
            term[1] = self.coefficient();
        }
    }
}

// Whether f by itself, in a room of 1 term, is 1 with remainder zero.
fn by_itself(p: u64, f: &[u64]) -> bool
    ensures { result ≡ right (division_row p f.now f.now 1 2 4 (done 1 0) (0 ∷ 1 ∷ []) []) }
{
    division_tried(p, f, f, 1, 2, 4, done(1, 0), ONE.0, NIL.0).right
}

// Twelve steps stay below 2^30, where x and y have fifteen bits each.
fn grown(xy: u64, s: u64) -> u64
    requires { xy < 1073741824 }
    ensures { result < 1073741824 }
{
    (xy + 1 + step(s)) % 1073741824
}

// A small step or a large one.
fn step(s: u64) -> u64
    ensures { result < 80000000 }
{
    if s % 2 == 0 { s % 1000 } else { s % 80000000 }
}

// x and y from one number, and z and t from another.
fn word(xy: u64, zt: u64) -> u64 {
    monomial::pack(xy / 32768, xy % 32768, zt % 32768, zt / 65536).value
}
