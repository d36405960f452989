// The rows on moduli and on balanced values.
ghost use Rattle.std.specs.Prelude.{◌≡◌};
ghost use Rattle.claims.specs.Sheet.{balanced, balance};
ghost use Rattle.rows.specs.Cases.{trial, modulus_trial};

use crate::Tried;
use compared::words::same_report;
use refusals::report::Report;
use services::check::check;

// A modulus, tried by the check of a polynomial.
pub fn modulus_tried(p: u64, a: &[u64], says: Report) -> Tried
    ensures { result ≡ modulus_trial p a.now says }
{
    let report = check(p, a);
    Tried {
        number: report.number,
        right: same_report(report, says),
    }
}

// The balanced value of a residue.
pub fn balanced_tried(p: u64, c: u64, value: i32) -> Tried
    ensures { result ≡ trial (balanced p c (balance 0 value)) }
{
    let found = field::balanced(p, c);
    Tried {
        number: found.number,
        right: found.number == 0 && found.value == value,
    }
}
