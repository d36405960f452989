// Numbers modulo a prime p: the operations of RULES Field and Balanced.
#![tactic(auto)]

ghost use Rattle.std.specs.Prelude.{◌≡◌, ◌+◌, ◌*◌, ◌%◌, ◌&&◌, ltb};
ghost use Rattle.field.specs.Answers.{field_sum_of, field_product_of, value_of};
ghost use Rattle.field.specs.Tries.{tried};

mod balances;
mod inverses;

pub use balances::{balanced, residue};
pub use inverses::inverse;
use moduli::{add_mod, is_modulus, mul_mod};
use reasons::Reason;

// What an operation answers: reply 0 and the value, or the number of a refusal and 0. The struct is C's, which has no Result.
#[repr(C)]
#[derive(Clone, Copy)]
pub struct Value {
    pub number: u64,
    pub value: u64,
}

// The same with a balanced value. It is a struct of its own, since no generic one goes to C.
#[repr(C)]
#[derive(Clone, Copy)]
pub struct Balance {
    pub number: u64,
    pub value: i32,
}

impl From<Result<u64, Reason>> for Value {
    ghost from_gives = { λ answer v. v ≡ value_of answer };

    fn from(answer: Result<u64, Reason>) -> Value {
        match answer {
            Ok(value) => Value { number: 0, value },
            Err(reason) => Value {
                number: reason.number(),
                value: 0,
            },
        }
    }
}

// The sum of two residues.
#[tactic(auto, using(crate::proofs::Operands::value_tried), unfolding(crate::specs::Answers::field_sum_of))]
pub fn sum(p: u64, a: u64, b: u64) -> Value
    ensures { result ≡ field_sum_of p a b }
{
    try_sum(p, a, b).into()
}

fn try_sum(p: u64, a: u64, b: u64) -> Result<u64, Reason>
    ensures { result ≡ tried p (ltb a p && ltb b p) ((a + b) % p) }
{
    accept_pair(p, a, b)?;
    Ok(add_mod(p, a, b))
}

// The product of two residues.
#[tactic(auto, using(crate::proofs::Operands::value_tried), unfolding(crate::specs::Answers::field_product_of))]
pub fn product(p: u64, a: u64, b: u64) -> Value
    ensures { result ≡ field_product_of p a b }
{
    try_product(p, a, b).into()
}

fn try_product(p: u64, a: u64, b: u64) -> Result<u64, Reason>
    ensures { result ≡ tried p (ltb a p && ltb b p) (a * b % p) }
{
    accept_pair(p, a, b)?;
    Ok(mul_mod(p, a, b))
}

fn accept_pair(p: u64, a: u64, b: u64) -> Result<(), Reason>
    ensures { result ≡ tried p (ltb a p && ltb b p) tt }
{
    accept(p, a < p && b < p)
}

// Refuses a p that is not a modulus, and then operands that are not good.
fn accept(p: u64, good: bool) -> Result<(), Reason>
    ensures { result ≡ tried p good tt }
{
    if !is_modulus(p) {
        Err(Reason::BadModulus)
    } else if !good {
        Err(Reason::BadCoefficient)
    } else {
        Ok(())
    }
}
