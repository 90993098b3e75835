// Insertion into a range tree: down to a leaf, and back, parting full nodes. A node and the descent below it call each other, one level lower each time.
#![tactic(auto)]

ghost use Rattle.std.specs.Prelude.{true, false, ◌≡◌, ◌≤◌, length};
ghost use Rattle.trees.specs.Ranges.{proper, overlaps};
ghost use Rattle.trees.specs.Nodes.{count_in, range_in, child_in};
ghost use Rattle.trees.specs.Trees.{nodes, height_of, tree_of, contents_of, OthersStay};
ghost use Rattle.trees.specs.Insertion.{insert_tree, insertion_way};
ghost use Rattle.trees.specs.Inner.Walk.{lawful};
ghost use Rattle.trees.specs.Inner.Places.{slot_by};
ghost use Rattle.trees.specs.Inner.Standing.{free_count, Widened, Ready, Grew, NewRoot};
ghost use Rattle.trees.specs.Inner.Holding.{Holding};

use treenodes::lines::opened_line;
use treenodes::reading::{child_at, count_at, first_place, root_at};
use treenodes::writing::{put, unused};
use trees::{Line, Range, Up};

// How many ranges of node n have no higher BASE.
fn insert_slot(tree: &[u32], n: usize, base: u32) -> usize
    requires tree_len { length tree.now ≡ 1537 }
    requires n_bound { (n ≤ 63) × (count_in tree.now n ≤ 4) }
    ensures { result ≡ slot_by (range_in tree.now n) base (count_in tree.now n) 0 }
{
    first_place(tree, n, |r| base < r.base)
}

// What goes up, at place i of node n, which is parted if it has four ranges.
fn widen(tree: &mut [u32], leaf: bool, n: usize, i: usize, up: Up) -> Option<Up>
    requires tree_len { length tree.old ≡ 1537 }
    requires n_bound { (n ≤ 63) × ((i ≤ 4) × ((count_in tree.old n ≤ 4) × (1 ≤ count_in tree.old n))) }
    requires bound { count_in tree.old n ≡ 4 → 1 ≤ free_count tree.old }
    ensures { Widened tree.old leaf n i up.range up.node result tree.new }
{
    let count = count_at(tree, n);
    let line = opened_line(tree, n, i, up.range, up.node);
    if count < 4 {
        put(tree, n, leaf, line, 0, count + 1);
        return None;
    }
    let m = unused(tree);
    put(tree, n, leaf, line, 0, 2);
    put(tree, m, leaf, line, 3, 2);
    Some(Up {
        range: line.ranges[2],
        node: m as u32,
    })
}

// The range into the subtree of `level` levels at node n.
#[cycle(insert_below_insert_node)]
fn insert_node(tree: &mut [u32], level: u32, n: usize, r: Range) -> Option<Up>
    requires tree_len { length tree.old ≡ 1537 }
    requires ready { Ready tree.old level n r }
    ensures { Grew tree.old level n r result tree.new }
{
    if level == 0 {
        return Some(Up { range: r, node: 0 });
    }
    let i = insert_slot(tree, n, r.base);
    let up = insert_below(tree, level - 1, n, i, r)?;
    widen(tree, level == 1, n, i, up)
}

// The range into the subtree of `level` levels at child i of node n.
#[cycle(insert_below_insert_node)]
fn insert_below(tree: &mut [u32], level: u32, n: usize, i: usize, r: Range) -> Option<Up>
    requires tree_len { length tree.old ≡ 1537 }
    requires n_bound { (n ≤ 63) × (i ≤ 4) }
    requires ready { Ready tree.old level (child_in tree.old n i) r }
    ensures { Grew tree.old level (child_in tree.old n i) r result tree.new }
{
    let c = child_at(tree, n, i);
    insert_node(tree, level, c, r)
}

// A new root over node `first` and what goes up.
fn new_root(tree: &mut [u32], leaf: bool, first: u32, up: Up)
    requires tree_len { length tree.old ≡ 1537 }
    requires bound { 1 ≤ free_count tree.old }
    ensures { NewRoot tree.old leaf up.range first up.node tree.new }
{
    let m = unused(tree);
    let line = Line {
        ranges: [up.range; 7],
        kids: [first, up.node, 0, 0, 0, 0, 0, 0],
    };
    put(tree, m, leaf, line, 0, 1);
    tree[0] = m as u32;
}

// The range into the tree, which is h levels high.
pub fn insert_root(tree: &mut [u32], h: u32, r: Range)
    requires tree_len { length tree.old ≡ 1537 }
    requires lawful_tree { lawful tree.old ≡ true }
    requires h_value { h ≡ height_of tree.old }
    requires proper_range { proper r ≡ true }
    requires no_overlap { overlaps r (contents_of tree.old) ≡ false }
    ensures holding { Holding tree.new (insert_tree r (tree_of tree.old)) }
    ensures others_stay { OthersStay tree.old (nodes (tree_of tree.old).height (tree_of tree.old).tree) (insertion_way r.base (tree_of tree.old).height (tree_of tree.old).tree) tree.new }
{
    let root = root_at(tree);
    let first = tree[0];
    let Some(up) = insert_node(tree, h, root, r) else {
        return;
    };
    new_root(tree, h == 0, first, up);
}
