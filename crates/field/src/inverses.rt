ghost use Rattle.std.specs.Prelude.{◌≡◌, ◌&&◌, ltb};
ghost use Rattle.algebra.specs.Residues.{inverse};
ghost use Rattle.field.specs.Answers.{inverse_of};
ghost use Rattle.field.specs.Tries.{tried};

use crate::{Value, accept};
use moduli::inverse_mod;
use reasons::Reason;

// The inverse of a residue other than 0.
#[tactic(auto, using(crate::proofs::Operands::value_tried), unfolding(crate::specs::Answers::inverse_of))]
pub fn inverse(p: u64, a: u64) -> Value
    ensures { result ≡ inverse_of p a }
{
    try_inverse(p, a).into()
}

fn try_inverse(p: u64, a: u64) -> Result<u64, Reason>
    ensures { result ≡ tried p (ltb 0 a && ltb a p) (inverse p a) }
{
    accept(p, 0 < a && a < p)?;
    Ok(inverse_mod(p, a))
}
