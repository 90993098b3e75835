// Whether a buffer is a lawful tree, whatever its words are: a walk in order, of a node and along its ranges, that call each other, one level lower each time.
ghost use Rattle.std.specs.Prelude.{◌≡◌, ◌+◌, ◌≤◌, length, not};
ghost use Rattle.trees.specs.Ranges.{misplaced, proper};
ghost use Rattle.trees.specs.Trees.{height_from, height_of};
ghost use Rattle.trees.specs.Inner.Walk.{zeros_in, node_fits, met as has_met, passed as has_passed, enters as may_enter, visit_from, visit as visited, free_fits, lawful as is_lawful};
ghost use Rattle.words.specs.Searches.{all_from};

use ranges::page_words::{allowed_rights, frames_fit};
use runs::{PAGES, SMALLEST_RANGE};
use treenodes::reading::{child_at, count_at, kid_count, leaf_at, range_at, root_at};
use trees::{Range, Walk};
use words::scans::all_zero;

// Whether the range has 8 pages or more, ends by page 1,023 and has no frame above 4,095.
pub fn well_placed(r: Range) -> bool
    ensures { result ≡ not (misplaced r) }
{
    // Stays: one `&&` of all tests, here and in `node_fits`, loses the bounds where its branches join; tried, the proof didn't close.
    if PAGES < r.limit {
        return false;
    }
    if r.limit < SMALLEST_RANGE {
        return false;
    }
    r.base <= r.limit - SMALLEST_RANGE && frames_fit(r.base, r.limit, r.offset)
}

// Whether insertion would take the range if it overlapped none.
fn proper_range(r: Range) -> bool
    ensures { result ≡ proper r }
{
    allowed_rights(r.rights) && well_placed(r)
}

// Whether words k up to m of node n are zero.
fn zeros_at(tree: &[u32], n: usize, k: usize, m: usize) -> bool
    requires tree_len { length tree.now ≡ 1537 }
    requires n_bound { (n ≤ 63) × ((k ≤ m) × (m ≤ 24)) }
    ensures { result ≡ zeros_in tree.now n k m }
{
    let at = 1 + n * 24;
    all_zero(tree, at + k, at + m)
}

// Whether the words of node n fit.
fn node_fits(tree: &[u32], leaf: bool, least: usize, n: usize) -> bool
    requires tree_len { length tree.now ≡ 1537 }
    requires n_bound { n ≤ 63 }
    ensures { result ≡ node_fits tree.now leaf least n }
{
    let count = count_at(tree, n);
    if count < least {
        return false;
    }
    if 4 < count {
        return false;
    }
    if leaf_at(tree, n) != u32::from(leaf) {
        return false;
    }
    zeros_at(tree, n, 2 + count * 4, 18) && zeros_at(tree, n, 18 + kid_count(leaf, count), 24)
}

// Whether node n may stand here.
fn enters(tree: &[u32], leaf: bool, least: usize, n: usize, walk: Walk) -> bool
    requires { length tree.now ≡ 1537 }
    ensures { result ≡ may_enter tree.now leaf least n walk }
{
    if 63 < n {
        return false;
    }
    !walk.seen[n] && node_fits(tree, leaf, least, n)
}

fn met(mut walk: Walk, n: usize) -> Walk
    requires { n ≤ 63 }
    ensures { result ≡ has_met walk n }
{
    walk.seen[n] = true;
    walk
}

// Range r follows, if it may.
fn passed(mut walk: Walk, r: Range) -> Option<Walk>
    ensures { result ≡ has_passed walk r }
{
    if r.base < walk.low {
        return None;
    }
    if !proper_range(r) {
        return None;
    }
    walk.low = r.limit;
    Some(walk)
}

// The subtree of `level` levels at node n; none if it is unlawful.
#[cycle(visit_visit_from)]
fn visit(tree: &[u32], level: u32, least: usize, n: usize, walk: Walk) -> Option<Walk>
    requires { length tree.now ≡ 1537 }
    ensures { result ≡ visited tree.now level least n walk }
{
    if level == 0 {
        return Some(walk);
    }
    if !enters(tree, level == 1, least, n, walk) {
        return None;
    }
    let count = count_at(tree, n);
    visit_from(tree, level - 1, n, count, 0, met(walk, n))
}

// Child i of node n, and its k ranges from the i-th on with a child each.
#[cycle(visit_visit_from)]
fn visit_from(tree: &[u32], level: u32, n: usize, k: usize, i: usize, walk: Walk) -> Option<Walk>
    requires tree_len { length tree.now ≡ 1537 }
    requires n_bound { (n ≤ 63) × (i + k ≤ 4) }
    ensures { result ≡ visit_from (visited tree.now level 2) tree.now n k i walk }
{
    let child = child_at(tree, n, i);
    let below = visit(tree, level, 2, child, walk)?;
    if k == 0 {
        return Some(below);
    }
    let next = passed(below, range_at(tree, n, i))?;
    visit_from(tree, level, n, k - 1, i + 1, next)
}

// How many levels the way by the first children has, at most k.
fn height_from(tree: &[u32], k: u32, n: usize) -> u32
    requires { length tree.now ≡ 1537 }
    ensures { result ≡ height_from tree.now k n }
{
    if k == 0 {
        return 0;
    }
    if 63 < n {
        return 1;
    }
    let leaf = leaf_at(tree, n);
    if leaf == 1 {
        return 1;
    }
    let c = child_at(tree, n, 0);
    height_from(tree, k - 1, c) + 1
}

pub fn height(tree: &[u32]) -> u32
    requires { length tree.now ≡ 1537 }
    ensures { result ≡ height_of tree.now }
{
    let root = root_at(tree);
    if root == 64 {
        return 0;
    }
    height_from(tree, 4, root)
}

// Whether node n was met or is zero.
fn free_at(tree: &[u32], walk: Walk, n: usize) -> bool
    requires tree_len { length tree.now ≡ 1537 }
    requires n_bound { n ≤ 63 }
    ensures { result ≡ free_fits tree.now walk.seen n }
{
    walk.seen[n] || zeros_at(tree, n, 0, 24)
}

// Whether every node that was not met is zero.
fn free_fit(tree: &[u32], walk: Walk) -> bool
    requires { length tree.now ≡ 1537 }
    ensures { result ≡ all_from 64 0 (free_fits tree.now walk.seen) }
{
    for n in 0..64 {
        if !free_at(tree, walk, n) {
            return false;
        }
    }
    true
}

pub fn lawful(tree: &[u32]) -> bool
    requires { length tree.now ≡ 1537 }
    ensures { result ≡ is_lawful tree.now }
{
    let start = Walk {
        low: 0,
        seen: [false; 64],
    };
    let Some(walk) = visit(tree, height(tree), 1, root_at(tree), start) else {
        return false;
    };
    free_fit(tree, walk)
}
