// Whether reports and arrays are what a row says.
ghost use Rattle.std.specs.Prelude.{◌≡◌, length};
ghost use Rattle.compared.specs.Compared.{same_report, same_words, AsLent, followed, rest_of};

use refusals::report::Report;

// What every word of an array is when it is lent.
const DIRT: u64 = 0xdddddddddddddddd;

// An array to lend, long enough for every row: memory is fixed.
pub fn lent_words() -> [u64; 16384]
    ensures { AsLent 16384 result }
{
    [DIRT; 16384]
}

pub fn same_report(a: Report, b: Report) -> bool
    ensures { result ≡ same_report a b }
{
    a == b
}

// What follows the terms in an array after a reply, by its number in C's report: refusals 1 to 8 leave it as it was, all others zeros.
pub fn rest_of(number: u64) -> u64
    ensures { result ≡ rest_of number }
{
    match number {
        1..=8 => DIRT,
        _ => 0,
    }
}

// Whether an array holds the words written, and then one word to its end.
pub fn holds(s: &[u64], written: &[u64], rest: u64) -> bool
    ensures { result ≡ same_words s.now (followed written.now rest (length s.now)) }
{
    match s.strip_prefix(written) {
        Some(behind) => behind.iter().all(|w| *w == rest),
        None => false,
    }
}
