// The words of a node.
// Stays: a node's number is a plain number, with its bound in a clause. A type of numbers up to 63 is no plainer: with no level left, below a leaf, any number stands for no node, and the functions that call each other take it.
ghost use Rattle.std.specs.Prelude.{◌≡◌, ◌≤◌, length};
ghost use Rattle.trees.specs.Nodes.{root_in, count_in, leaf_in, range_in, child_in};
ghost use Rattle.trees.specs.Inner.Walk.{kids};
ghost use Rattle.trees.specs.Inner.Places.{FirstPlace};

use trees::Range;

// The root's number, 64 if the tree is empty.
pub fn root_at(tree: &[u32]) -> usize
    requires { length tree.now ≡ 1537 }
    ensures { result ≡ root_in tree.now }
{
    tree[0] as usize
}

// The range count of node n.
pub fn count_at(tree: &[u32], n: usize) -> usize
    requires tree_len { length tree.now ≡ 1537 }
    requires n_bound { n ≤ 63 }
    ensures { result ≡ count_in tree.now n }
{
    tree[1 + n * 24] as usize
}

// 1 for a leaf, or else 0.
// Stays: the word as it is, and no bool: an unlawful buffer may hold any number here (`leaf_in`), and `node_fits` refuses all but these two.
pub fn leaf_at(tree: &[u32], n: usize) -> u32
    requires tree_len { length tree.now ≡ 1537 }
    requires n_bound { n ≤ 63 }
    ensures { result ≡ leaf_in tree.now n }
{
    tree[1 + n * 24 + 1]
}

// Range i of node n.
pub fn range_at(tree: &[u32], n: usize, i: usize) -> Range
    requires tree_len { length tree.now ≡ 1537 }
    requires n_bound { (n ≤ 63) × (i ≤ 3) }
    ensures { result ≡ range_in tree.now n i }
{
    let at = 1 + n * 24 + 2 + i * 4;
    Range {
        base: tree[at],
        limit: tree[at + 1],
        offset: tree[at + 2],
        rights: tree[at + 3],
    }
}

// Child i of node n.
pub fn child_at(tree: &[u32], n: usize, i: usize) -> usize
    requires tree_len { length tree.now ≡ 1537 }
    requires n_bound { (n ≤ 63) × (i ≤ 4) }
    ensures { result ≡ child_in tree.now n i }
{
    tree[1 + n * 24 + 18 + i] as usize
}

// The place of the first range of node n that passes, or the place behind its ranges.
pub fn first_place<F: Fn(Range) -> bool>(tree: &[u32], n: usize, passes: F) -> usize
    requires tree_len { length tree.now ≡ 1537 }
    requires n_bound { (n ≤ 63) × (count_in tree.now n ≤ 4) }
    requires callable { F.IsAlwaysCallable passes }
    ensures { FirstPlace (F.post passes) (range_in tree.now n) (count_in tree.now n) result }
{
    let count = count_at(tree, n);
    for i in 0..count {
        if passes(range_at(tree, n, i)) {
            return i;
        }
    }
    count
}

// How many children a node of so many ranges has.
pub fn kid_count(leaf: bool, count: usize) -> usize
    requires { count ≤ 4 }
    ensures { result ≡ kids leaf count }
{
    if leaf { 0 } else { count + 1 }
}
