// The profile of a polynomial beside its report.
ghost use Rattle.std.specs.Prelude.{◌≡◌};
ghost use Rattle.services.specs.Services.{profile_of};

use crate::check::check;
use poly::profile::{Profile, measure};
use refusals::report::Report;

// A report, and a profile beside it. The struct is C's, which has no Result.
#[repr(C)]
#[derive(Clone, Copy)]
pub struct Profiled {
    pub report: Report,
    pub profile: Profile,
}

// The profile of a polynomial beside its report; every number 0 where the report refuses.
pub fn profile_of(p: u64, s: &[u64]) -> Profiled
    ensures { result ≡ profile_of p s.now }
{
    let report = check(p, s);
    let profile = if report.is_done() {
        measure(s)
    } else {
        Profile::default()
    };
    Profiled { report, profile }
}
