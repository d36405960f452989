ghost use Rattle.std.specs.Prelude.{◌≡◌, ◌<◌, ◌≤◌, true, ltb};
ghost use Rattle.moduli.specs.Moduli.{limit};
ghost use Rattle.field.specs.Answers.{balance_of, balanced_of, balanced_value, residue_of, residue_value};
ghost use Rattle.field.specs.Tries.{tried};

use crate::{Balance, Value, accept};
use moduli::neg_mod;
use reasons::Reason;

impl From<Result<i32, Reason>> for Balance {
    ghost from_gives = { λ answer v. v ≡ balance_of answer };

    fn from(answer: Result<i32, Reason>) -> Balance {
        match answer {
            Ok(value) => Balance { number: 0, value },
            Err(reason) => Balance {
                number: reason.number(),
                value: 0,
            },
        }
    }
}

// The balanced value of a residue.
#[tactic(auto, using(crate::proofs::Operands::balance_tried), unfolding(crate::specs::Answers::balanced_of))]
pub fn balanced(p: u64, c: u64) -> Balance
    ensures { result ≡ balanced_of p c }
{
    try_balanced(p, c).into()
}

fn try_balanced(p: u64, c: u64) -> Result<i32, Reason>
    ensures { result ≡ tried p (ltb c p) (balanced_value p c) }
{
    accept(p, c < p)?;
    Ok(balanced_mod(p, c))
}

// The balanced value, unchecked.
fn balanced_mod(p: u64, c: u64) -> i32
    requires { (p ≤ limit) × (c < p) }
    ensures { result ≡ balanced_value p c }
{
    if 2 * c <= p {
        c as i32
    } else {
        -((p - c) as i32)
    }
}

// The residue of any signed 32-bit number: the way back from the balanced value.
#[tactic(auto, using(crate::proofs::Operands::value_tried), unfolding(crate::specs::Answers::residue_of))]
pub fn residue(p: u64, n: i32) -> Value
    ensures { result ≡ residue_of p n }
{
    try_residue(p, n).into()
}

fn try_residue(p: u64, n: i32) -> Result<u64, Reason>
    ensures { result ≡ tried p true (residue_value p n) }
{
    accept(p, true)?;
    Ok(residue_mod(p, n))
}

// The residue, unchecked. Below 0 it goes by the number's size, since `rem_euclid` in 64 bits takes up to 2.5 times as long for a small p.
fn residue_mod(p: u64, n: i32) -> u64
    requires { (p ≤ limit) × (0 < p) }
    ensures { result ≡ residue_value p n }
{
    if n < 0 {
        neg_mod(p, u64::from(n.unsigned_abs()) % p)
    } else {
        n as u64 % p
    }
}
