// One of two numbers.
#![tactic(auto)]

ghost use Rattle.std.specs.Prelude.{◌≡◌};
ghost use Rattle.algebra.specs.Residues.{pick};

// The first number where a test passed, else the second: what loops choose by it is chosen without a branch.
pub fn choose(passed: bool, a: u64, b: u64) -> u64
    ensures { result ≡ pick passed a b }
{
    if passed { a } else { b }
}
