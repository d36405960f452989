// The run of one power of x: in lexicographic order its terms lie side by side.
ghost use Rattle.std.specs.Prelude.{◌≡◌, ◌+◌, ◌*◌, ◌≤◌};
ghost use Rattle.poly.specs.Words.{records};
ghost use Rattle.services.specs.Searches.{within};
ghost use Rattle.services.specs.Services.{starts, ends, in_order, run_of, words_from};

use dues::Due;
use refusals::rules::INPUT_TERMS;

// A part of a slice, from one word up to another. The struct is C's, so that no part is the empty one at the front.
#[repr(C)]
#[derive(Clone, Copy, Default)]
pub struct Part {
    pub start: usize,
    pub end: usize,
}

// The terms with this power of x, as a part of the slice lent: empty, at its front, where no term has it or the slice fails 2 to 5.
pub fn run(s: &[u64], power: u64) -> &[u64]
    ensures { (result.now ≡ words_from (run_of s.now power) s.now)
        × (result.ref_ptr ≡ (s.entry.ref_ptr.0, s.entry.ref_ptr.1 + 8 * (run_of s.now power).start)) }
{
    let part = run_part(s, power);
    &s[part.start..part.end]
}

// Where that part lies.
pub fn run_part(s: &[u64], power: u64) -> Part
    ensures { result ≡ run_of s.now power }
{
    if !in_order(s) {
        return Part::default();
    }
    let Some(start) = first_with(s, power) else {
        return Part::default();
    };
    Part {
        start: 2 * start,
        end: 2 * first_without(s, power, start),
    }
}

// None of 2, 3, 4 and 5 is due. The modulus is asked for 6 alone.
fn in_order(s: &[u64]) -> bool
    ensures { result ≡ in_order s.now }
{
    let due = Due::none().input(0, 1, INPUT_TERMS, s);
    due.odd.is_done() && due.long.is_done() && due.guard.is_done() && due.order.is_done()
}

// The first term with the power. This search and the next are a line each, so that none takes the test as a closure.
fn first_with(s: &[u64], power: u64) -> Option<usize>
    ensures { result ≡ within (starts s.now power) (records s.now) }
{
    (0..s.len() / 2).find(|&i| monomial::exponent(s[2 * i], 0) == power)
}

// The first term from a given one on without it, or the number of terms.
fn first_without(s: &[u64], power: u64, from: usize) -> usize
    requires { from ≤ records s.now }
    ensures { result ≡ ends s.now power from }
{
    let terms = s.len() / 2;
    (from..terms)
        .find(|&i| monomial::exponent(s[2 * i], 0) != power)
        .unwrap_or(terms)
}
