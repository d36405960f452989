// The calls on polynomials, each tried on a row. Rooms are given by their terms, and the work array by its words: they are front parts
// of longer arrays, since their lengths are the row's. Limits are clauses of each, as docs/CLAIMS.md has them. None is laid into its
// caller, so that the arrays of one call alone are on the stack.
ghost use Rattle.std.specs.Prelude.{◌*◌, ◌≤◌, ◌≡◌};
ghost use Rattle.rows.specs.Cases.{trial, product_row, division_row, test_row};

use crate::Tried;
use compared::outcomes::{ZERO, outcome_said};
use compared::words::lent_words;
use division::division::divide;
use division::test::divides;
use refusals::report::Report;

// The product.
#[inline(never)]
pub fn product_tried(
    p: u64,
    a: &[u64],
    b: &[u64],
    room: usize,
    work: usize,
    says: Report,
    written: &[u64],
) -> Tried
    requires { (2 * room ≤ 16384) × (work ≤ 16384) }
    ensures { result ≡ trial (product_row p a.now b.now room work says written.now) }
{
    let mut room_words = lent_words();
    let mut work_words = lent_words();
    let room = &mut room_words[..2 * room];
    let work = &mut work_words[..work];
    let report = product::product(p, a, b, room, work);
    Tried {
        number: report.number,
        right: outcome_said(report, room, &ZERO, work, says, written, &ZERO),
    }
}

// Division with remainder.
#[inline(never)]
pub fn division_tried(
    p: u64,
    f: &[u64],
    g: &[u64],
    q: usize,
    r: usize,
    work: usize,
    says: Report,
    quotient: &[u64],
    remainder: &[u64],
) -> Tried
    requires { (2 * q ≤ 16384) × (2 * r ≤ 16384) × (work ≤ 16384) }
    ensures { result
        ≡ trial (division_row p f.now g.now q r work says quotient.now remainder.now) }
{
    let mut q_words = lent_words();
    let mut r_words = lent_words();
    let mut work_words = lent_words();
    let q = &mut q_words[..2 * q];
    let r = &mut r_words[..2 * r];
    let work = &mut work_words[..work];
    let report = divide(p, f, g, q, r, work);
    Tried {
        number: report.number,
        right: outcome_said(report, q, r, work, says, quotient, remainder),
    }
}

// The divide test.
#[inline(never)]
pub fn test_tried(
    p: u64,
    f: &[u64],
    g: &[u64],
    q: usize,
    work: usize,
    says: Report,
    quotient: &[u64],
) -> Tried
    requires { (2 * q ≤ 16384) × (work ≤ 16384) }
    ensures { result ≡ trial (test_row p f.now g.now q work says quotient.now) }
{
    let mut q_words = lent_words();
    let mut work_words = lent_words();
    let q = &mut q_words[..2 * q];
    let work = &mut work_words[..work];
    let report = divides(p, f, g, q, work);
    Tried {
        number: report.number,
        right: outcome_said(report, q, &ZERO, work, says, quotient, &ZERO),
    }
}
