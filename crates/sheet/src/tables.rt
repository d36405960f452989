// The cases of the sheet, and its polynomials, each with the number of its row: A, B and AB are factors and product; F, G, Q and R are
// dividend, divisor, quotient and remainder. A record is a monomial word and a coefficient; −1 modulo 101 is 100.
use crate::cases::Case::{self, *};
use crate::cases::Says::{Done, Stop};
use crate::text::Poly;
use reasons::Reason::{BadModulus, BigExponent, NoRoom, NotDivisible, ZeroDivisor};

const X: u64 = 0x0001000000000000;

const Y: u64 = 0x0000000100000000;

// the zero polynomial, and what is written where nothing is
pub const NIL: Poly = Poly(&[]);

pub const ONE: Poly = Poly(&[0, 1]);

pub const F10: Poly = Poly(&[X, 1]);

pub const A1: Poly = Poly(&[4 * X, 2, 3 * X, 3, X, 4]);

pub const B1: Poly = Poly(&[5 * X, 1, 3 * X, 5, 0, 7]);

pub const AB1: Poly = Poly(&[
    9 * X,
    2,
    8 * X,
    3,
    7 * X,
    10,
    6 * X,
    19,
    4 * X,
    34,
    3 * X,
    21,
    X,
    28,
]);

pub const F3: Poly = Poly(&[2 * X + Y, 1, X + 2 * Y, 1, 2 * Y, 1]);

pub const G3: Poly = Poly(&[X + Y, 1, 0, 100]);

pub const Q3: Poly = Poly(&[X, 1, Y, 1]);

pub const R3: Poly = Poly(&[X, 1, 2 * Y, 1, Y, 1]);

// the whole quotient array with room for 3 terms
pub const ARRAY3: Poly = Poly(&[0x0001000000000000, 1, 0x0000000100000000, 1, 0, 0]);

pub const A4: Poly = Poly(&[X, 1, Y, 1]);

pub const B4: Poly = Poly(&[X, 1, Y, 100]);

pub const AB4: Poly = Poly(&[2 * X, 1, 2 * Y, 100]);

pub const A5: Poly = Poly(&[X, 1, 0, 1]);

pub const AA5: Poly = Poly(&[2 * X, 1, 0, 1]);

pub const A6: Poly = Poly(&[16383 * X, 1]);

pub const B6: Poly = Poly(&[16384 * X, 1]);

pub const AB6: Poly = Poly(&[32767 * X, 1]);

pub const F7: Poly = Poly(&[2 * X, 1]);

pub const G7: Poly = Poly(&[X, 1, 20000 * Y, 100]);

pub const F8: Poly = Poly(&[3 * X, 1, 0, 100]);

pub const G8: Poly = Poly(&[X, 1, 0, 100]);

pub const Q8: Poly = Poly(&[2 * X, 1, X, 1, 0, 1]);

pub const F9: Poly = Poly(&[5000 * X, 1, 0, 100]);

// In the order of the rows: row, modulus, inputs, rooms in terms, work in words, the report, and the terms that have to be in the rooms.
// An empty quotient room is full at the first quotient term, so in row 7 reply 9 is met at the second.
pub static SHEET: [Case; 35] = [
    Product(1, 101, A1, B1, 7, 12, Done(7, 0), AB1),
    Product(1, 101, A1, B1, 6, 15, Stop(NoRoom, 0), NIL),
    Division(2, 101, AB1, A1, 3, 2, 12, Done(3, 0), B1, NIL),
    Division(3, 101, F3, G3, 3, 4, 12, Done(2, 3), Q3, R3),
    QuotientArray(3, 101, F3, G3, 3, 4, 12, Done(2, 3), ARRAY3, R3),
    DivideTest(3, 101, F3, G3, 3, 13, Stop(NotDivisible, 0), NIL),
    Product(4, 101, A4, B4, 2, 8, Done(2, 0), AB4),
    Product(5, 2, A5, A5, 3, 8, Done(2, 0), AA5),
    Product(6, 101, A6, B6, 1, 4, Done(1, 0), AB6),
    Product(6, 101, AB6, F10, 1, 4, Stop(BigExponent, 0), NIL),
    Division(7, 101, F7, G7, 8, 2, 32, Stop(BigExponent, 0), NIL, NIL),
    Division(7, 101, F7, G7, 1, 2, 4, Stop(BigExponent, 0), NIL, NIL),
    Division(7, 101, F7, G7, 0, 2, 0, Stop(NoRoom, 0), NIL, NIL),
    DivideTest(7, 101, F7, G7, 8, 32, Stop(NotDivisible, 0), NIL),
    Division(8, 101, F8, G8, 3, 1, 12, Done(3, 0), Q8, NIL),
    DivideTest(8, 101, F8, G8, 3, 12, Done(3, 0), Q8),
    Division(8, 101, F8, G8, 2, 1, 8, Stop(NoRoom, 0), NIL, NIL),
    DivideTest(8, 101, F8, G8, 2, 9, Stop(NoRoom, 0), NIL),
    Division(9, 101, F9, G8, 4096, 1, 16384, Stop(NoRoom, 0), NIL, NIL),
    Division(10, 101, NIL, F10, 0, 0, 0, Done(0, 0), NIL, NIL),
    Division(10, 101, F10, NIL, 1, 1, 4, Stop(ZeroDivisor, 2), NIL, NIL),
    Division(11, 101, A1, A1, 1, 1, 4, Done(1, 0), ONE, NIL),
    Divisions(11, 2),
    Divisions(11, 101),
    Divisions(11, 2147483647),
    Check(12, 1, F10, Stop(BadModulus, 0)),
    Check(12, 4, F10, Stop(BadModulus, 0)),
    Check(12, 2147483646, F10, Stop(BadModulus, 0)),
    Check(12, 2147483648, F10, Stop(BadModulus, 0)),
    Check(12, 2, F10, Done(1, 0)),
    Check(12, 2147483647, F10, Done(1, 0)),
    Balanced(13, 101, 50, 50),
    Balanced(13, 101, 51, -50),
    Balanced(13, 101, 100, -1),
    Balanced(13, 2, 1, 1),
];
