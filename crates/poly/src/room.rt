// Rooms: what every call does with the arrays that it is lent.
ghost use Rattle.std.specs.Prelude.{◌≡◌, ◌++◌, ◌+◌, ◌-◌, ◌*◌, ◌<◌, length, take, set, replicate};
ghost use Rattle.poly.specs.Words.{records};

// Zero words from a given one to the end.
pub fn clear(s: &mut [u64], from: usize)
    ensures { s.new ≡ take from s.old ++ replicate (length s.old - from) 0 }
{
    if from < s.len() {
        s[from..].fill(0);
    }
}

// Writes record i of a room.
pub fn put_term(s: &mut [u64], i: usize, word: u64, number: u64)
    requires { i < records s.old }
    ensures { s.new ≡ set (set s.old (2 * i) word) (2 * i + 1) number }
{
    s[2 * i] = word;
    s[2 * i + 1] = number;
}
