// A tree that grows: its leaves move behind the records of a tree of more rows. Work and its number of rows are two arguments, as in
// `tree`.
#![tactic(auto)]

ghost use Rattle.std.specs.Prelude.{◌*◌, ◌≤◌, length};
ghost use Rattle.growth.specs.Growth.{LeafOf, Moved, Grown};

use tree::{Node, build};

// Makes a tree of `count` rows one of `more` rows. Nothing waits in the new ones.
pub fn grow(work: &mut [u64], count: usize, more: usize)
    requires { (count ≤ more) × (4 * more ≤ length work.old) }
    ensures { Grown count more work.old work.new }
{
    move_leaves(work, count, more);
    build(work, more);
}

// From the last row to the first, so that no leaf is written over before it was moved.
fn move_leaves(work: &mut [u64], count: usize, more: usize)
    requires { (count ≤ more) × (4 * more ≤ length work.old) }
    ensures { Moved count more work.old 0 work.new }
{
    for row in (0..more).rev() {
        leaf_of(work, count, row).put(work, more + row);
    }
}

// The leaf of a row, empty where the tree has no such row.
fn leaf_of(work: &[u64], count: usize, row: usize) -> Node
    requires { 4 * count ≤ length work.now }
    ensures { LeafOf count work.now row result }
{
    if row < count {
        Node::at(work, count + row)
    } else {
        Node { key: 0, tag: 0 }
    }
}
