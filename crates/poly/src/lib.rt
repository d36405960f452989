// Polynomials in memory: records of words, rooms, keys, the largest exponents. A record is two words of a slice that is lent
// (RULES Form 4), and read by its place, as `word_at` and `coef_at` have it.
// That a slice is a polynomial modulo p (`Valid`) is a clause of those that need it: a type would be made anew of each slice lent.
#![tactic(auto)]

pub mod keys;
pub mod profile;
pub mod room;
