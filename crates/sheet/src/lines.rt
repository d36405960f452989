// A line of the sheet: a case, and what came of it.
use crate::cases::{Case, Found, Modulus, Row};
use crate::random::{DRAWS, SEED};
use crate::text::{Reply, Words};
use std::fmt;

// A case that was tried.
#[derive(Clone, Copy)]
pub struct Line<'a> {
    pub case: Case<'a>,
    pub found: Found,
}

impl fmt::Display for Line<'_> {
    fn fmt<W: fmt::Write>(&self, f: &mut fmt::Formatter<W>) -> fmt::Result {
        let Line { case, found } = *self;
        write!(f, "{case}:")?;
        match (case, found) {
            (_, Found::Draws(right)) => {
                write!(f, " {right} times {} quotient 1, remainder 0", Reply(0))?
            }
            // its words follow, and no reply
            (Case::QuotientArray(..), Found::Reply(_)) => (),
            (_, Found::Reply(tried)) => write!(f, " {}", Reply(tried.number))?,
        }
        if let Found::Reply(tried) = found
            && tried.right
            && tried.number == 0
        {
            write!(f, "{}", Output(case))?;
        }
        f.write_str(if found.right() {
            "; as the sheet says"
        } else {
            "; NOT as the sheet says"
        })
    }
}

// The row, the call, the modulus, the inputs and the rooms.
impl fmt::Display for Case<'_> {
    fn fmt<W: fmt::Write>(&self, f: &mut fmt::Formatter<W>) -> fmt::Result {
        let (row, call, p) = self.head();
        write!(f, "row {row}: {call} mod {p} of ")?;
        match *self {
            Case::Product(_, _, a, b, room, ..) => write!(f, "{a} and {b}, room {room}"),
            Case::Division(_, _, a, b, q, r, ..) => write!(f, "{a} by {b}, rooms {q} and {r}"),
            Case::QuotientArray(_, _, a, b, q, ..) | Case::DivideTest(_, _, a, b, q, ..) => {
                write!(f, "{a} by {b}, room {q}")
            }
            Case::Check(_, _, a, _) => write!(f, "{a}"),
            Case::Balanced(_, _, c, _) => write!(f, "{c}"),
            Case::Divisions(..) => write!(
                f,
                "{DRAWS} random polynomials, each by itself, from seed {SEED}, room 1"
            ),
        }
    }
}

impl Case<'_> {
    fn head(&self) -> (Row, &'static str, Modulus) {
        match *self {
            Case::Product(row, p, ..) => (row, "product", p),
            Case::Division(row, p, ..) | Case::Divisions(row, p) => (row, "division", p),
            Case::QuotientArray(row, p, ..) => (row, "quotient array", p),
            Case::DivideTest(row, p, ..) => (row, "divide test", p),
            Case::Check(row, p, ..) => (row, "check", p),
            Case::Balanced(row, p, ..) => (row, "balanced value", p),
        }
    }
}

// What was found in the rooms after reply 0, where it is what the sheet says: the sheet's own words are the words that were found.
#[derive(Clone, Copy)]
struct Output<'a>(Case<'a>);

impl fmt::Display for Output<'_> {
    fn fmt<W: fmt::Write>(&self, f: &mut fmt::Formatter<W>) -> fmt::Result {
        match self.0 {
            Case::Product(.., product) => write!(f, " {product}"),
            Case::Division(.., quotient, remainder) => {
                write!(f, " quotient {quotient}, remainder {remainder}")
            }
            Case::QuotientArray(.., array, _) => write!(f, "{}", Words(array.0)),
            Case::DivideTest(.., quotient) => write!(f, " quotient {quotient}"),
            Case::Balanced(.., value) => write!(f, " {value}"),
            Case::Check(..) | Case::Divisions(..) => Ok(()),
        }
    }
}
