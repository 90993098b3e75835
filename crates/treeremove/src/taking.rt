// A range taken out of a subtree.
ghost use Rattle.std.specs.Prelude.{◌≡◌, ◌-◌, ◌≤◌, ◌<◌, length, true};
ghost use Rattle.trees.specs.Nodes.{count_in, range_in, child_in};
ghost use Rattle.trees.specs.Inner.Shrinking.{slot_under, within, found_at, Trimmed, Loose, Took, Unsettled, Settled};

use crate::mending::{mend, set_range, trim};
use treenodes::reading::{child_at, count_at, first_place, range_at};
use trees::Range;

// How many ranges of node n have a lower BASE.
fn slot_below(tree: &[u32], n: usize, base: u32) -> usize
    requires tree_len { length tree.now ≡ 1537 }
    requires n_bound { (n ≤ 63) × (count_in tree.now n ≤ 4) }
    ensures { result ≡ slot_under (range_in tree.now n) base (count_in tree.now n) 0 }
{
    first_place(tree, n, |r| base <= r.base)
}

// Whether range i of node n is there and has this BASE.
fn has_base_at(tree: &[u32], n: usize, i: usize, base: u32) -> bool
    requires tree_len { length tree.now ≡ 1537 }
    requires n_bound { (n ≤ 63) × (count_in tree.now n ≤ 4) }
    ensures { result ≡ found_at (range_in tree.now n) base (count_in tree.now n) i }
{
    i < count_at(tree, n) && range_at(tree, n, i).base == base
}

// Place i of so many, or the last one.
fn place_within(count: usize, i: usize) -> usize
    requires { 1 ≤ count }
    ensures { (result ≡ within count i) × (result < count) }
{
    i.min(count - 1)
}

// Out of leaf n: the range at place i, or the last one if i is the count.
fn take_from_leaf(tree: &mut [u32], n: usize, i: usize) -> Range
    requires tree_len { length tree.old ≡ 1537 }
    requires n_bound { (n ≤ 63) × ((1 ≤ count_in tree.old n) × (count_in tree.old n ≤ 4)) }
    ensures { (result ≡ range_in tree.old n (within (count_in tree.old n) i)) × Trimmed tree.old true n (within (count_in tree.old n) i) tree.new }
{
    let c = count_at(tree, n);
    let p = place_within(c, i);
    let s = range_at(tree, n, p);
    trim(tree, true, n, p);
    s
}

// What was taken out of child i of node n stands in place of range i, if that has the BASE; then the child and its neighbour are mended. The range taken.
fn settle(tree: &mut [u32], level: u32, n: usize, i: usize, base: u32, taken: Range) -> Range
    requires tree_len { length tree.old ≡ 1537 }
    requires le_level { (2 ≤ level) × Unsettled tree.old (level - 1) n i }
    ensures { Settled tree.old (level - 1) n i base taken result tree.new }
{
    let c = count_at(tree, n);
    let j = place_within(c, i);
    if has_base_at(tree, n, i, base) {
        let r = range_at(tree, n, i);
        set_range(tree, false, n, i, taken);
        mend(tree, level, n, j);
        return r;
    }
    mend(tree, level, n, j);
    taken
}

// Out of the subtree of `level` levels at node n: the range of this BASE, or the last one where all are lower. The node and the child on the way call each other, one level lower each time.
#[cycle(take_below_take_node)]
pub fn take_node(tree: &mut [u32], level: u32, n: usize, base: u32) -> Range
    requires tree_len { length tree.old ≡ 1537 }
    requires le_level { (1 ≤ level) × Loose tree.old level n }
    ensures { Took tree.old base level n result tree.new }
{
    let i = slot_below(tree, n, base);
    if level == 1 {
        return take_from_leaf(tree, n, i);
    }
    let taken = take_below(tree, level - 1, n, i, base);
    settle(tree, level, n, i, base, taken)
}

// The same out of child i of node n.
#[cycle(take_below_take_node)]
fn take_below(tree: &mut [u32], level: u32, n: usize, i: usize, base: u32) -> Range
    requires tree_len { length tree.old ≡ 1537 }
    requires n_bound { (n ≤ 63) × (i ≤ 4) }
    requires le_level { (1 ≤ level) × Loose tree.old level (child_in tree.old n i) }
    ensures { Took tree.old base level (child_in tree.old n i) result tree.new }
{
    let k = child_at(tree, n, i);
    take_node(tree, level, k, base)
}
