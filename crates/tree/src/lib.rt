// A winner tree in the work array, four words a row: it finds the greatest of the products for which the rows wait.
// A climb touches one record a level, and nothing moves; a zeroed array is a tree in which nothing waits.
// Rows, columns and work are three arguments and no struct: a division writes its rows, the quotient room, between two calls, so that
// a struct would be made anew at each. So are work and its number of rows, which grows in between.
#![tactic(auto)]

ghost use Rattle.std.specs.Prelude.{◌≡◌, ℕ, ◌+◌, ◌*◌, ◌-◌, ◌<◌, ◌≤◌, ◌^◌, length};
ghost use Rattle.moduli.specs.Moduli.{limit};
ghost use Rattle.poly.specs.Words.{records, word_at};
ghost use Rattle.tree.specs.Tree.{row_of, column_of, node_at, written, Live, Sides, Settled, Greater, Next, Climbed, Taken, Added, Planted, Built, Started};

use poly::room::put_term;

// What one row counts in a tag: the columns lie below. A row and a column share a word, since the lent work has four words a row.
const ROW: u64 = 0x100000000;

// A record of the tree. Where nothing waits its key is 0 and no Option: everything merges by keys (docs/DECISIONS.md), and work that is
// zero is an empty tree.
#[derive(Clone, Copy)]
pub struct Node {
    pub key: u64,
    pub tag: u64,
}

impl Node {
    // The record of a row at a column.
    fn new(key: u64, row: usize, column: usize) -> Node
        requires { (row < 2 ^ 32) × (column < 2 ^ 32) }
        ensures { (result.key ≡ key) × (result.tag ≡ row * 2 ^ 32 + column) }
    {
        Node {
            key,
            tag: row as u64 * ROW + column as u64,
        }
    }

    // Record j of a work array.
    pub fn at(work: &[u64], j: usize) -> Node
        requires { j < records work.now }
        ensures { result ≡ node_at work.now j }
    {
        Node {
            key: work[2 * j],
            tag: work[2 * j + 1],
        }
    }

    // Writes it as record j of a work array.
    pub fn put(self, work: &mut [u64], j: usize)
        requires { j < records work.old }
        ensures { work.new ≡ written self j work.old }
    {
        put_term(work, j, self.key, self.tag);
    }

    fn row(self) -> usize
        ensures { result ≡ row_of self.tag }
    {
        (self.tag / ROW) as usize
    }

    fn column(self) -> usize
        ensures { result ≡ column_of self.tag }
    {
        (self.tag % ROW) as usize
    }

    // The record of the same row, whose word is given, after this one.
    fn after(self, word: u64, cols: &[u64]) -> Node
        requires { (word < 2 ^ 63) × (column_of self.tag < records cols.now) × (self.tag < 2 ^ 64 - 1) × ((i : ℕ) → i < records cols.now → word_at cols.now i < 2 ^ 63) }
        ensures { Next cols.now word (column_of self.tag) self.tag result }
    {
        let next = self.column() + 1;
        if next < cols.len() / 2 {
            Node {
                key: word + cols[2 * next] + 1,
                tag: self.tag + 1,
            }
        } else {
            Node {
                key: 0,
                tag: self.tag,
            }
        }
    }
}

// Takes all that waits at key k, and answers its coefficient modulo p. Where the climb from one record meets another of key k, that
// one is taken next, with no need to reach the root in between.
pub fn take(p: u64, rows: &[u64], cols: &[u64], work: &mut [u64], k: u64) -> u64
    requires within { (0 < p) × (p ≤ limit) × (0 < k) × (0 < records rows.now) }
    requires sides { Sides rows.now cols.now p }
    requires live { Live rows.now cols.now work.old }
    ensures { Taken p rows.now cols.now k work.old work.new result }
{
    let count = rows.len() / 2;
    let mut sum = 0;
    let mut node = Node::at(work, 1);
    while node.key == k {
        let row = node.row();
        sum = (sum + rows[2 * row + 1] * cols[2 * node.column() + 1]) % p;
        let next = node.after(rows[2 * row], cols);
        let at = climb(work, count, count + row, next, k);
        node = Node::at(work, at);
    }
    sum
}

// Lets one more row wait for its products from a column on. No key is as great as k, so the climb ends at the root.
pub fn add(rows: &[u64], cols: &[u64], work: &mut [u64], row: usize, column: usize, k: u64)
    requires within { (row < records rows.now) × (records rows.now < 2 ^ 32) × (column < records cols.now) × (records cols.now < 2 ^ 32) }
    requires vacant { (word_at work.old (records rows.now + row) ≡ 0) × (word_at rows.now row + word_at cols.now column + 1 < k) × (word_at work.old 1 < k) }
    requires live { Live rows.now cols.now work.old }
    ensures { Added rows.now cols.now row column k work.old work.new }
{
    let count = rows.len() / 2;
    let key = rows[2 * row] + cols[2 * column] + 1;
    climb(work, count, count + row, Node::new(key, row, column), k);
}

// Lets every row wait for its product with the first column.
pub fn start(rows: &[u64], cols: &[u64], work: &mut [u64])
    requires within { (0 < records cols.now) × (records rows.now < 2 ^ 32) × (4 * records rows.now ≤ length work.old) }
    requires words { ((i : ℕ) → i < records rows.now → word_at rows.now i < 2 ^ 63) × (word_at cols.now 0 < 2 ^ 63) }
    ensures { Started rows.now cols.now work.old work.new }
{
    let count = rows.len() / 2;
    plant(rows, cols[0], work);
    build(work, count);
}

// Writes the leaves of all rows at the first column, whose word is given.
fn plant(rows: &[u64], first: u64, work: &mut [u64])
    requires { (records rows.now < 2 ^ 32) × (4 * records rows.now ≤ length work.old) × (first < 2 ^ 63) × ((i : ℕ) → i < records rows.now → word_at rows.now i < 2 ^ 63) }
    ensures { Planted rows.now first work.old (records rows.now) work.new }
{
    let count = rows.len() / 2;
    for i in 0..count {
        let key = rows[2 * i] + first + 1;
        Node::new(key, i, 0).put(work, count + i);
    }
}

// Makes every record above the leaves a copy of its greater child, from the last one to the root.
pub fn build(work: &mut [u64], count: usize)
    requires { 4 * count ≤ length work.old }
    ensures { Built count work.old 1 work.new }
{
    for at in (1..count).rev() {
        let first = Node::at(work, 2 * at);
        let second = Node::at(work, 2 * at + 1);
        better(first, second).put(work, at);
    }
}

// The greater of two records, by their keys alone: a derived order would compare the tags too.
fn better(a: Node, b: Node) -> Node
    ensures { Greater a b result }
{
    if a.key < b.key { b } else { a }
}

// Writes a leaf, and the records above it: up to the root, or until the record beside has the key k. Answers where it ended.
fn climb(work: &mut [u64], count: usize, leaf: usize, node: Node, k: u64) -> usize
    requires within { (count ≤ leaf) × (leaf < 2 * count) × (4 * count ≤ length work.old) × (1 ≤ leaf) }
    requires settled { Settled count leaf work.old }
    ensures { Climbed count leaf node.key node.tag k work.old work.new result }
{
    let mut at = leaf;
    let mut best = node;
    best.put(work, at);
    while 1 < at {
        let beside = at ^ 1;
        let other = Node::at(work, beside);
        if other.key == k {
            return beside;
        }
        best = better(best, other);
        at /= 2;
        best.put(work, at);
    }
    at
}
