// The inputs of a call on two polynomials.
ghost use Rattle.std.specs.Prelude.{◌≡◌};
ghost use Rattle.dues.specs.Dues.{no_due, with_inputs};
ghost use Rattle.calls.specs.Inputs.{inputs};

use dues::Due;
use refusals::rules::INPUT_TERMS;

// The refusals due of two inputs.
pub fn two_inputs(p: u64, a: &[u64], b: &[u64]) -> Due
    ensures { result ≡ with_inputs p no_due (inputs a.now b.now) }
{
    Due::none()
        .input(p, 1, INPUT_TERMS, a)
        .input(p, 2, INPUT_TERMS, b)
}
