// The walk: one step after another, until nothing remains or a judge stops it.
#![tactic(auto)]

ghost use Rattle.std.specs.Prelude.{◌≡◌, ℕ, ◌*◌, ◌<◌, ◌≤◌, length, get_or};
ghost use Rattle.walk.specs.Running.{Fresh, Enough, Ran};

use growth::grow;
use heads::greatest_key;
use judges::Plan;
use poly::room::clear;
use reasons::Reason;
use steps::{State, step};

// The rows of a new tree. It grows with the quotient, so that a room much longer than the quotient costs nothing; the rows are a number
// beside the work, since memory is lent and fixed.
const FIRST_ROWS: usize = 16;

// Walks down the dividend as the plan has it: the quotient in q, the remainder in r, or the reason that stopped the walk.
pub fn run(plan: &Plan<'_>, q: &mut [u64], r: &mut [u64], work: &mut [u64]) -> Result<State, Reason>
    requires { Fresh plan.now q.old r.old work.old }
    ensures { Ran plan.now q.old r.old work.old q.new r.new work.new result }
{
    let room = q.len() / 2;
    let mut rows = FIRST_ROWS.min(room);
    clear_front(work, 4 * FIRST_ROWS);
    let mut s = State {
        next: 0,
        quotient: 0,
        remainder: 0,
    };
    let mut k = greatest_key(plan.f, work, 0);
    while 0 < k {
        rows = enough_rows(work, rows, s.quotient, room);
        s = step(plan, &mut q[..2 * rows], r, work, s, k)?;
        k = greatest_key(plan.f, work, s.next);
    }
    Ok(s)
}

// Zero words at the front, so many or all that there are: a tree in which nothing waits. Growing writes all that lies behind.
fn clear_front(work: &mut [u64], words: usize)
    ensures { (length work.new ≡ length work.old) × ((i : ℕ) → i < words → get_or work.new i 0 ≡ 0) }
{
    let count = words.min(work.len());
    clear(&mut work[..count], 0);
}

// The rows of the tree, which grows where all of them are taken and the room has more.
fn enough_rows(work: &mut [u64], rows: usize, taken: usize, room: usize) -> usize
    requires { (rows ≤ room) × (0 < room → 0 < rows) × (4 * room ≤ length work.old) }
    ensures { Enough rows taken room work.old work.new result }
{
    if taken < rows || rows == room {
        return rows;
    }
    let more = (2 * rows).min(room);
    grow(work, rows, more);
    more
}
