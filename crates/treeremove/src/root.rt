// A range taken out of the whole tree.
ghost use Rattle.std.specs.Prelude.{◌≡◌, true, ◌≤◌, length};
ghost use Rattle.trees.specs.Nodes.{root_in};
ghost use Rattle.trees.specs.Trees.{nodes, tree_at, height_of, tree_of, OthersStay};
ghost use Rattle.trees.specs.Removal.{remove_tree, removal_way};
ghost use Rattle.trees.specs.Inner.Walk.{lawful};
ghost use Rattle.trees.specs.Inner.Shrinking.{RootGone};
ghost use Rattle.trees.specs.Inner.Holding.{Holding};

use crate::taking::take_node;
use treenodes::reading::{child_at, count_at, root_at};
use treenodes::writing::clear;
use trees::NO_ROOT;

// Root n goes, and v is the root's number.
fn drop_root(tree: &mut [u32], n: usize, v: u32)
    requires tree_len { length tree.old ≡ 1537 }
    requires n_bound { n ≤ 63 }
    ensures { RootGone tree.old n v tree.new }
{
    clear(tree, n);
    tree[0] = v;
}

// Out of the tree, of h levels: the range of this BASE, or the last one where all are lower; a root without ranges goes.
pub fn remove_root(tree: &mut [u32], h: u32, base: u32)
    requires tree_len { length tree.old ≡ 1537 }
    requires lawful_tree { lawful tree.old ≡ true }
    requires h_value { (h ≡ height_of tree.old) × (1 ≤ h) }
    ensures holding { Holding tree.new (remove_tree base (tree_of tree.old)) }
    ensures others_stay { OthersStay tree.old (nodes (height_of tree.old) (tree_at tree.old (height_of tree.old) (root_in tree.old))) (removal_way base (height_of tree.old) (tree_at tree.old (height_of tree.old) (root_in tree.old))) tree.new }
{
    let root = root_at(tree);
    take_node(tree, h, root, base);
    let c = count_at(tree, root);
    if 0 < c {
        return;
    }
    if h == 1 {
        drop_root(tree, root, NO_ROOT);
        return;
    }
    let first = child_at(tree, root, 0);
    drop_root(tree, root, first as u32);
}
