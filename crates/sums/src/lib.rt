// Sum and difference.
#![tactic(auto)]

ghost use Rattle.std.specs.Prelude.{◌≡◌, []};
ghost use Rattle.calls.specs.Outcomes.{outcome};
ghost use Rattle.sums.specs.Sums.{sum_of, difference_of, combined_of};

use calls::ending::{leave, room_reply, told};
use calls::inputs::two_inputs;
use merging::merge;
use refusals::report::{Report, done};
use refusals::rules::ROOM_TERMS;

// The sum of two polynomials.
#[tactic(auto, unfolding(crate::specs::Sums::sum_of))]
pub fn sum(p: u64, a: &[u64], b: &[u64], room: &mut [u64]) -> Report
    ensures { outcome result room.new [] [] ≡ sum_of p a.now b.now room.old }
{
    combine(p, a, b, false, room)
}

// The difference of two polynomials.
#[tactic(auto, unfolding(crate::specs::Sums::difference_of))]
pub fn difference(p: u64, a: &[u64], b: &[u64], room: &mut [u64]) -> Report
    ensures { outcome result room.new [] [] ≡ difference_of p a.now b.now room.old }
{
    combine(p, a, b, true, room)
}

// The sum, or with `minus`, which `merge` takes, the difference. Room is counted after terms have cancelled.
fn combine(p: u64, a: &[u64], b: &[u64], minus: bool, room: &mut [u64]) -> Report
    ensures { outcome result room.new [] [] ≡ combined_of p minus a.now b.now room.old }
{
    let due = two_inputs(p, a, b)
        .room(3, ROOM_TERMS, room)
        .first(p, done(0, 0));
    if !due.is_done() {
        return due;
    }
    let end = room_reply(merge(p, a, b, minus, room), room);
    leave(room, end.ok());
    told(end.map(|n| (n, 0)))
}
