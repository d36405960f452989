// The cases of the sheet: what each calls, and what came of it.
ghost use Rattle.std.specs.Prelude.{◌≡◌};
ghost use Rattle.sheet.specs.Cases.{report_of, Fits, Gives, is_right};

use crate::random::{DRAWS, draws};
use crate::text::Poly;
use reasons::Reason;
use refusals::report::{Report, done, refusal};
use rows::Tried;
use rows::fields::{balanced_tried, modulus_tried};
use rows::polys::{division_tried, product_tried, test_tried};

// The row of a case, and its modulus.
pub type Row = u64;

pub type Modulus = u64;

// A room by its terms, and a work array by its words.
type Room = usize;

type Work = usize;

// A call: its inputs, its rooms, its work array, what it has to answer, and what it has to write.
#[derive(Clone, Copy)]
pub enum Case<'a> {
    Product(Row, Modulus, Poly<'a>, Poly<'a>, Room, Work, Says, Poly<'a>),
    Division(Row, Modulus, Poly<'a>, Poly<'a>, Room, Room, Work, Says, Poly<'a>, Poly<'a>),
    // a division of which the whole quotient array is shown
    QuotientArray(Row, Modulus, Poly<'a>, Poly<'a>, Room, Room, Work, Says, Poly<'a>, Poly<'a>),
    DivideTest(Row, Modulus, Poly<'a>, Poly<'a>, Room, Work, Says, Poly<'a>),
    Check(Row, Modulus, Poly<'a>, Says),
    // a residue, and its balanced value
    Balanced(Row, Modulus, u64, i32),
    // of random polynomials, each by itself
    Divisions(Row, Modulus),
}

// What a call has to answer: reply 0 with the terms of its outputs, or a refusal, and the operand that it blames. In a table these names
// say more than the Ok and Err of two pairs.
#[derive(Clone, Copy)]
pub enum Says {
    Done(u64, u64),
    Stop(Reason, u64),
}

// What a case gave: of a call whether it is right, and of random divisions how many are.
#[derive(Clone, Copy)]
pub enum Found {
    Reply(Tried),
    Draws(usize),
}

impl Says {
    fn report(self) -> Report
        ensures { result ≡ report_of self }
    {
        match self {
            Says::Done(first, second) => done(first, second),
            Says::Stop(reason, operand) => refusal(reason.number(), operand, 0),
        }
    }
}

impl Case<'_> {
    // Runs the call of a case.
    pub fn tried(&self) -> Found
        requires { Fits self.now }
        ensures { Gives self.now result }
    {
        match *self {
            Case::Product(_, p, a, b, room, work, says, product) => Found::Reply(product_tried(
                p,
                a.0,
                b.0,
                room,
                work,
                says.report(),
                product.0,
            )),
            Case::Division(_, p, f, g, q, r, work, says, quotient, remainder)
            | Case::QuotientArray(_, p, f, g, q, r, work, says, quotient, remainder) => {
                Found::Reply(division_tried(
                    p,
                    f.0,
                    g.0,
                    q,
                    r,
                    work,
                    says.report(),
                    quotient.0,
                    remainder.0,
                ))
            }
            Case::DivideTest(_, p, f, g, q, work, says, quotient) => Found::Reply(test_tried(
                p,
                f.0,
                g.0,
                q,
                work,
                says.report(),
                quotient.0,
            )),
            Case::Check(_, p, a, says) => Found::Reply(modulus_tried(p, a.0, says.report())),
            Case::Balanced(_, p, c, value) => Found::Reply(balanced_tried(p, c, value)),
            Case::Divisions(_, p) => Found::Draws(draws(p)),
        }
    }
}

impl Found {
    // Whether all is as the sheet says.
    pub fn right(self) -> bool
        ensures { result ≡ is_right self }
    {
        match self {
            Found::Reply(tried) => tried.right,
            Found::Draws(right) => right == DRAWS,
        }
    }
}
