// How a call ends that was not refused: with reply 0 its rooms hold their terms and then zero words, with any other zero words alone.
ghost use Rattle.std.specs.Prelude.{◌≡◌, ◌≤◌};
ghost use Rattle.std.specs.Option.{ForSome};
ghost use Rattle.poly.specs.Words.{records};
ghost use Rattle.reasons.specs.Reasons.{reply_of};
ghost use Rattle.calls.specs.Outcomes.{room_reply, told};
ghost use Rattle.calls.specs.Endings.{roomed, left, told_of};

use poly::room::clear;
use reasons::Reason;
use refusals::report::{Report, done, refusal};

// So many terms, or no room where the room has too few places for them.
pub fn room_reply(terms: usize, room: &[u64]) -> Result<usize, Reason>
    ensures value { result ≡ roomed terms room.now }
    ensures reply { reply_of result ≡ room_reply terms room.now }
{
    if terms <= room.len() / 2 {
        Ok(terms)
    } else {
        Err(Reason::NoRoom)
    }
}

// Leaves a room that was written: its terms and then zero words, or zero words alone where the call was stopped.
pub fn leave(room: &mut [u64], terms: Option<usize>)
    requires { ForSome terms (λ n. n ≤ records room.old) }
    ensures { room.new ≡ left terms room.old }
{
    clear(room, 2 * terms.unwrap_or(0));
}

// The report of a call: the terms of both outputs, or why there are none.
pub fn told(end: Result<(usize, usize), Reason>) -> Report
    ensures { result ≡ told_of end }
{
    match end {
        Ok((first, second)) => report_of(0, first, second),
        Err(reason) => report_of(reason.number(), 0, 0),
    }
}

// The report with a reply, and the terms of both outputs where it is 0.
pub fn report_of(reply: u64, first: usize, second: usize) -> Report
    ensures { result ≡ told reply first second }
{
    if reply == 0 {
        done(first as u64, second as u64)
    } else {
        refusal(reply, 0, 0)
    }
}
