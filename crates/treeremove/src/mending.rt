// Two neighbours of which one may have a single range, and the writing of one node.
ghost use Rattle.std.specs.Prelude.{◌≡◌, ◌||◌, ◌+◌, ◌-◌, ◌≤◌, ◌<◌, ltb, length};
ghost use Rattle.trees.specs.Nodes.{count_in, range_in};
ghost use Rattle.trees.specs.Inner.Shrinking.{JoinedLine, Merged, Shared, Uneven, Mended, Trimmed, Ranged};

use treenodes::lines::{closed_line, joined_line, placed_line};
use treenodes::reading::{child_at, count_at, range_at};
use treenodes::writing::{clear, put};
use trees::{Line, Range};

// Whether one of two nodes of so many ranges has fewer than two.
fn thin(a: usize, c: usize) -> bool
    ensures { result ≡ (ltb a 2 || ltb c 2) }
{
    a < 2 || c < 2
}

// Range i out of node n, with the child behind it.
pub fn trim(tree: &mut [u32], leaf: bool, n: usize, i: usize)
    requires tree_len { length tree.old ≡ 1537 }
    requires n_bound { (n ≤ 63) × ((i ≤ 4) × ((1 ≤ count_in tree.old n) × (count_in tree.old n ≤ 4))) }
    ensures { Trimmed tree.old leaf n i tree.new }
{
    let rest = closed_line(tree, n, i);
    let c = count_at(tree, n);
    put(tree, n, leaf, rest, 0, c - 1);
}

// Range s at place i of node n.
pub fn set_range(tree: &mut [u32], leaf: bool, n: usize, i: usize, s: Range)
    requires tree_len { length tree.old ≡ 1537 }
    requires n_bound { (n ≤ 63) × (count_in tree.old n ≤ 4) }
    ensures { Ranged tree.old leaf n i s tree.new }
{
    let row = placed_line(tree, n, i, s);
    let c = count_at(tree, n);
    put(tree, n, leaf, row, 0, c);
}

// Children j and j + 1 of node n, the nodes x and y, become one node of k ranges, those of the line.
fn merge(tree: &mut [u32], leaf: bool, n: usize, j: usize, x: usize, y: usize, k: usize, line: Line)
    requires tree_len { length tree.old ≡ 1537 }
    requires n_bound { (n ≤ 63) × ((x ≤ 63) × ((y ≤ 63) × ((j ≤ 4) × ((1 ≤ count_in tree.old n) × (count_in tree.old n ≤ 4))))) }
    requires k_value { (k ≡ count_in tree.old x + 1 + count_in tree.old y) × (k ≤ 4) }
    requires joined_line { JoinedLine tree.old x (range_in tree.old n j) y line.ranges line.kids }
    requires apart { (x ≡ n → ⊥) × ((y ≡ n → ⊥) × (x ≡ y → ⊥)) }
    ensures { Merged tree.old leaf n j x y tree.new }
{
    let rest = closed_line(tree, n, j);
    let c = count_at(tree, n);
    put(tree, x, leaf, line, 0, k);
    clear(tree, y);
    put(tree, n, false, rest, 0, c - 1);
}

// Or they share the ranges of the line anew: two for x, one between them, k for y.
fn share(tree: &mut [u32], leaf: bool, n: usize, j: usize, x: usize, y: usize, k: usize, line: Line)
    requires tree_len { length tree.old ≡ 1537 }
    requires n_bound { (n ≤ 63) × ((x ≤ 63) × ((y ≤ 63) × (count_in tree.old n ≤ 4))) }
    requires k_value { (k ≡ count_in tree.old x + count_in tree.old y - 2) × ((2 ≤ k) × (k ≤ 3)) }
    requires joined_line { JoinedLine tree.old x (range_in tree.old n j) y line.ranges line.kids }
    requires apart { (x ≡ n → ⊥) × ((y ≡ n → ⊥) × (x ≡ y → ⊥)) }
    ensures { Shared tree.old leaf n j x y tree.new }
{
    let middle = line.ranges[2];
    let row = placed_line(tree, n, j, middle);
    let c = count_at(tree, n);
    put(tree, x, leaf, line, 0, 2);
    put(tree, y, leaf, line, 3, k);
    put(tree, n, false, row, 0, c);
}

// Children j and j + 1 of node n, of `level` levels: they merge or share their ranges anew if one has a single range.
pub fn mend(tree: &mut [u32], level: u32, n: usize, j: usize)
    requires tree_len { length tree.old ≡ 1537 }
    requires le_level { (2 ≤ level) × ((n ≤ 63) × ((j < count_in tree.old n) × (count_in tree.old n ≤ 4))) }
    requires uneven { Uneven tree.old (level - 1) n j }
    ensures { Mended tree.old (level - 1) n j tree.new }
{
    let x = child_at(tree, n, j);
    let y = child_at(tree, n, j + 1);
    let cx = count_at(tree, x);
    let cy = count_at(tree, y);
    if !thin(cx, cy) {
        return;
    }
    let s = range_at(tree, n, j);
    let line = joined_line(tree, x, cx, s, y);
    let leaf = level == 2;
    if cx + cy < 4 {
        merge(tree, leaf, n, j, x, y, cx + 1 + cy, line);
        return;
    }
    share(tree, leaf, n, j, x, y, cx + cy - 2, line);
}
