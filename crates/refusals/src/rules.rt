// The refusals 1 to 8. A call folds those that it has with `or_else`, in the order in which they win. A rule that is not due answers a
// report that is done, and no Option: `or_else` says why.
#![tactic(auto, unfolding(crate::specs::Rules::modulus_rule, crate::specs::Rules::odd_rule, crate::specs::Rules::long_rule, crate::specs::Rules::divisor_rule, crate::specs::Rules::work_rule))]

ghost use Rattle.std.specs.Prelude.{◌≡◌, ◌<◌};
ghost use Rattle.refusals.specs.Rules.{unless, at_term, modulus_rule, odd_rule, long_rule, divisor_rule, work_rule};

use crate::report::{Report, done, refusal};
use reasons::Reason;

// The most terms of an input or a quotient room, and of any other room.
pub const INPUT_TERMS: usize = 4096;

pub const ROOM_TERMS: usize = 16777216;

// A refusal where a test did not pass.
pub fn unless(passed: bool, number: u64, operand: u64) -> Report
    ensures { result ≡ unless passed number operand }
{
    if passed {
        done(0, 0)
    } else {
        refusal(number, operand, 0)
    }
}

// A refusal at a term, where there is such a term: `faults` gives the number of terms for none.
pub fn at_term(number: u64, operand: u64, index: u64, count: u64) -> Report
    ensures { result ≡ at_term number operand index count }
{
    if index < count {
        refusal(number, operand, index)
    } else {
        done(0, 0)
    }
}

// 1: the modulus is not a prime in its range.
pub fn modulus_rule(p: u64) -> Report
    ensures { result ≡ modulus_rule p }
{
    unless(moduli::is_modulus(p), Reason::BadModulus.number(), 0)
}

// 2: odd length.
pub fn odd_rule(operand: u64, s: &[u64]) -> Report
    ensures { result ≡ odd_rule operand s.now }
{
    unless(s.len() % 2 == 0, Reason::OddLength.number(), operand)
}

// 3: more terms than allowed.
pub fn long_rule(most: usize, operand: u64, s: &[u64]) -> Report
    ensures { result ≡ long_rule most operand s.now }
{
    unless(s.len() / 2 <= most, Reason::TooLong.number(), operand)
}

// 7: the divisor is zero.
pub fn divisor_rule(g: &[u64]) -> Report
    ensures { result ≡ divisor_rule g.now }
{
    unless(0 < g.len() / 2, Reason::ZeroDivisor.number(), 2)
}

// 8: the work array is shorter than the least length.
pub fn work_rule(least: usize, work: &[u64]) -> Report
    ensures { result ≡ work_rule least work.now }
{
    unless(least <= work.len(), Reason::ShortWork.number(), 5)
}
