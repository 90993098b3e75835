// The search of all three calls: in a node, and a descent to a child, which call each other, one level lower each time.
ghost use Rattle.std.specs.Prelude.{◌≡◌, suc, ◌≤◌, ◌<◌, length};
ghost use Rattle.trees.specs.Nodes.{count_in, range_in, child_in};
ghost use Rattle.trees.specs.Trees.{tree_at};
ghost use Rattle.trees.specs.Inner.Search.{further, or_else, slot_behind, search_tree};
ghost use Rattle.trees.specs.Inner.Standing.{Stands};

use runs::Page;
use treenodes::reading::{child_at, count_at, first_place, range_at};
use trees::{Path, Range};

// The place of the first range of node n that ends behind the page, or the place behind its ranges.
fn slot_behind(tree: &[u32], n: usize, page: Page) -> usize
    requires tree_len { length tree.now ≡ 1537 }
    requires n_bound { (n ≤ 63) × (count_in tree.now n ≤ 4) }
    ensures { result ≡ slot_behind (range_in tree.now n) page.0 (count_in tree.now n) 0 }
{
    first_place(tree, n, |r| page.0 < r.limit)
}

// One node more on the way.
fn one_further(p: Path) -> Path
    requires { p.nodes < 4294967295 }
    ensures { result ≡ further p }
{
    Path {
        range: p.range,
        nodes: p.nodes + 1,
    }
}

// Range r, where nothing was found.
fn or_else(r: Range, p: Path) -> Path
    ensures { result ≡ or_else r p }
{
    Path {
        range: Some(p.range.unwrap_or(r)),
        nodes: p.nodes,
    }
}

// The first range that ends behind the page, in the subtree of `level` levels at node n.
#[cycle(descend_search_node)]
pub fn search_node(tree: &[u32], level: u32, n: usize, page: Page) -> Path
    requires tree_len { length tree.now ≡ 1537 }
    requires stands { Stands tree.now level 0 n }
    ensures { result ≡ search_tree level (tree_at tree.now level n) page.0 }
{
    if level == 0 {
        return Path {
            range: None,
            nodes: 0,
        };
    }
    let count = count_at(tree, n);
    let i = slot_behind(tree, n, page);
    if count <= i {
        return one_further(descend(tree, level - 1, n, i, page));
    }
    let r = range_at(tree, n, i);
    if page.0 < r.base {
        return one_further(or_else(r, descend(tree, level - 1, n, i, page)));
    }
    Path {
        range: Some(r),
        nodes: 1,
    }
}

// The same in the subtree of child i of node n.
#[cycle(descend_search_node)]
fn descend(tree: &[u32], level: u32, n: usize, i: usize, page: Page) -> Path
    requires tree_len { length tree.now ≡ 1537 }
    requires stands { (Stands tree.now (suc level) 0 n) × (i ≤ count_in tree.now n) }
    ensures { result ≡ search_tree level (tree_at tree.now level (child_in tree.now n i)) page.0 }
{
    let c = child_at(tree, n, i);
    search_node(tree, level, c, page)
}
