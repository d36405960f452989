// Why a call gives no result: the replies 1 to 12 of RULES Replies.
#![tactic(auto)]

ghost use Rattle.std.specs.Prelude.{◌≡◌};
ghost use Rattle.reasons.specs.Reasons.{number_of, Named};

use std::error::Error;
use std::fmt;

#[derive(Clone, Copy, Debug, PartialEq, Eq)]
pub enum Reason {
    BadModulus = 1,
    OddLength = 2,
    TooLong = 3,
    BadMonomial = 4,
    BadOrder = 5,
    BadCoefficient = 6,
    ZeroDivisor = 7,
    ShortWork = 8,
    BigExponent = 9,
    NoRoom = 10,
    NoRemainderRoom = 11,
    NotDivisible = 12,
}

// A number that is no reply without a result.
#[derive(Clone, Copy, Debug, PartialEq, Eq)]
pub struct NoReason(pub u64);

impl Reason {
    // The reply's number, as every report has it.
    pub fn number(self) -> u64
        ensures { result ≡ number_of self }
    {
        self as u64
    }
}

impl TryFrom<u64> for Reason {
    type Error = NoReason;

    ghost try_from_gives = { Named };

    fn try_from(number: u64) -> Result<Self, NoReason> {
        match number {
            1 => Ok(Reason::BadModulus),
            2 => Ok(Reason::OddLength),
            3 => Ok(Reason::TooLong),
            4 => Ok(Reason::BadMonomial),
            5 => Ok(Reason::BadOrder),
            6 => Ok(Reason::BadCoefficient),
            7 => Ok(Reason::ZeroDivisor),
            8 => Ok(Reason::ShortWork),
            9 => Ok(Reason::BigExponent),
            10 => Ok(Reason::NoRoom),
            11 => Ok(Reason::NoRemainderRoom),
            12 => Ok(Reason::NotDivisible),
            _ => Err(NoReason(number)),
        }
    }
}

impl fmt::Display for Reason {
    fn fmt<W: fmt::Write>(&self, f: &mut fmt::Formatter<W>) -> fmt::Result {
        f.write_str(match self {
            Reason::BadModulus => "the modulus is not a prime in its range",
            Reason::OddLength => "an odd length",
            Reason::TooLong => "too many terms",
            Reason::BadMonomial => "a guard bit is set",
            Reason::BadOrder => "a monomial is not below the one before",
            Reason::BadCoefficient => "a coefficient is 0 or at least the modulus",
            Reason::ZeroDivisor => "the divisor is zero",
            Reason::ShortWork => "the work array is too short",
            Reason::BigExponent => "an exponent over 32,767",
            Reason::NoRoom => "no room in the sum, product or quotient",
            Reason::NoRemainderRoom => "no room in the remainder",
            Reason::NotDivisible => "does not divide",
        })
    }
}

impl fmt::Display for NoReason {
    fn fmt<W: fmt::Write>(&self, f: &mut fmt::Formatter<W>) -> fmt::Result {
        f.write_str("no such reply")
    }
}

impl Error for Reason {}

impl Error for NoReason {}
