// Keys: a monomial word + 1, and 0 where there is none. The terms of several slices are met by them, from the greatest monomial down.
// A key is a word and no Option, since the tree in the work array keeps keys in its words, and the greater of two is their `max`.
ghost use Rattle.std.specs.Prelude.{◌≡◌, ◌<◌, ◌^◌};
ghost use Rattle.poly.specs.Words.{records, word_at};
ghost use Rattle.poly.specs.Keys.{key_at, head_at};

// The coefficient of a monomial, and the place behind its record; where the monomial is not there, 0 and the same place. No Option:
// a coefficient 0 is added, and the same place taken on, as any other.
#[derive(Clone, Copy)]
pub struct Head {
    pub coef: u64,
    pub next: usize,
}

// The key of a record; 0 behind the last. That its word is below 2^63 is a clause of each that reads it, a part of `Valid`.
pub fn key_at(s: &[u64], i: usize) -> u64
    requires { i < records s.now → word_at s.now i < 2 ^ 63 }
    ensures { result ≡ key_at s.now i }
{
    if i < s.len() / 2 { s[2 * i] + 1 } else { 0 }
}

// What a slice that was read up to a record has at a key.
pub fn head_at(s: &[u64], i: usize, k: u64) -> Head
    requires { (0 < k) × (i < records s.now → word_at s.now i < 2 ^ 63) }
    ensures { result ≡ head_at s.now i k }
{
    if key_at(s, i) == k {
        Head {
            coef: s[2 * i + 1],
            next: i + 1,
        }
    } else {
        Head { coef: 0, next: i }
    }
}
