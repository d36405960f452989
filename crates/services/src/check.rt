// The check of one polynomial.
ghost use Rattle.std.specs.Prelude.{◌≡◌};
ghost use Rattle.services.specs.Services.{check_of};

use dues::Due;
use refusals::report::{Report, done};
use refusals::rules::INPUT_TERMS;

// Whether a slice is a polynomial modulo p: a refusal 1 to 6, or reply 0 with its term count.
pub fn check(p: u64, s: &[u64]) -> Report
    ensures { result ≡ check_of p s.now }
{
    let terms = (s.len() / 2) as u64;
    Due::none()
        .input(p, 1, INPUT_TERMS, s)
        .first(p, done(terms, 0))
}
