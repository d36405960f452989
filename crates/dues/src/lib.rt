// The refusals of a call, slice by slice: a call names the slices that it was lent, and asks for the first refusal that is due.
#![tactic(auto)]

ghost use Rattle.std.specs.Prelude.{◌≡◌};
ghost use Rattle.refusals.specs.Rules.{lent};
ghost use Rattle.dues.specs.Dues.{no_due, with_room, with_input, first_due};

use faults::find_faults;
use reasons::Reason;
use refusals::report::{Report, or_else};
use refusals::rules::{at_term, long_rule, modulus_rule, odd_rule};

// The first refusal of each kind, 2 to 6, that is due of the slices lent so far.
#[derive(Clone, Copy, Default)]
pub struct Due {
    pub odd: Report,
    pub long: Report,
    pub guard: Report,
    pub order: Report,
    pub coef: Report,
}

impl Due {
    // No slice was lent yet.
    pub fn none() -> Due
        ensures { result ≡ no_due }
    {
        Due::default()
    }

    // One more slice, of at most so many terms: 2 and 3.
    pub fn room(mut self, operand: u64, most: usize, s: &[u64]) -> Due
        ensures { result ≡ with_room self (lent operand s.now most) }
    {
        self.odd = or_else(self.odd, odd_rule(operand, s));
        self.long = or_else(self.long, long_rule(most, operand, s));
        self
    }

    // One more slice that has to be a polynomial modulo p: 2 to 6.
    pub fn input(self, p: u64, operand: u64, most: usize, s: &[u64]) -> Due
        ensures { result ≡ with_input p self (lent operand s.now most) }
    {
        let mut due = self.room(operand, most, s);
        let count = (s.len() / 2) as u64;
        let f = find_faults(p, s);
        due.guard = or_else(
            due.guard,
            at_term(Reason::BadMonomial.number(), operand, f.guard, count),
        );
        due.order = or_else(
            due.order,
            at_term(Reason::BadOrder.number(), operand, f.order, count),
        );
        due.coef = or_else(
            due.coef,
            at_term(Reason::BadCoefficient.number(), operand, f.coef, count),
        );
        due
    }

    // The first refusal due of 1 to 6, else the report given.
    pub fn first(self, p: u64, otherwise: Report) -> Report
        ensures { result ≡ first_due p self otherwise }
    {
        let coef = or_else(self.coef, otherwise);
        let order = or_else(self.order, coef);
        let guard = or_else(self.guard, order);
        let long = or_else(self.long, guard);
        or_else(modulus_rule(p), or_else(self.odd, long))
    }
}
