// Writing a node.
ghost use Rattle.std.specs.Prelude.{◌≡◌, ◌+◌, ◌≤◌, length, get_or, ℕ, ◌<◌};
ghost use Rattle.trees.specs.Nodes.{count_in, field_of, no_range};
ghost use Rattle.trees.specs.Inner.Places.{row_word};
ghost use Rattle.trees.specs.Inner.Standing.{Put, free_count, free_number};

use crate::reading::{count_at, kid_count};
use trees::{Line, Range};
use words::writes::fill;

// Word q of a range.
fn field(r: Range, q: usize) -> u32
    ensures { result ≡ field_of r q }
{
    match q {
        0 => r.base,
        1 => r.limit,
        2 => r.offset,
        _ => r.rights,
    }
}

// Word j of a node that has k ranges of the line, from place `from` on.
fn word_of(line: Line, leaf: bool, from: usize, k: usize, j: usize) -> u32
    requires { (k ≤ 4) × ((from + k ≤ 7) × (j ≤ 23)) }
    ensures { result ≡ row_word leaf k (λ i. get_or line.ranges (from + i) no_range) (λ i. get_or line.kids (from + i) 0) j }
{
    if j == 0 {
        return k as u32;
    }
    if j == 1 {
        return u32::from(leaf);
    }
    if j < 18 {
        let i = (j - 2) / 4;
        if k <= i {
            return 0;
        }
        return field(line.ranges[from + i], (j - 2) % 4);
    }
    let i = j - 18;
    let c = kid_count(leaf, k);
    if c <= i {
        return 0;
    }
    line.kids[from + i]
}

// Node n is to have k ranges of the line, from place `from` on.
pub fn put(tree: &mut [u32], n: usize, leaf: bool, line: Line, from: usize, k: usize)
    requires tree_len { length tree.old ≡ 1537 }
    requires n_bound { (n ≤ 63) × ((k ≤ 4) × (from + k ≤ 7)) }
    ensures { Put tree.old n (row_word leaf k (λ i. get_or line.ranges (from + i) no_range) (λ i. get_or line.kids (from + i) 0)) tree.new }
{
    for j in 0..24 {
        tree[1 + n * 24 + j] = word_of(line, leaf, from, k, j);
    }
}

// The lowest unused node; there is one, so the 0 is never given.
// Stays: a number, and no Option: `unused` (docs/PROMISES.md) promises one, and it can't fail.
pub fn unused(tree: &[u32]) -> usize
    requires tree_len { length tree.now ≡ 1537 }
    requires bound { 1 ≤ free_count tree.now }
    ensures { (result ≤ 63) × ((count_in tree.now result ≡ 0) × (((m : ℕ) → m < result → count_in tree.now m ≡ 0 → ⊥) × (result ≡ free_number tree.now 0))) }
{
    for n in 0..64 {
        if count_at(tree, n) == 0 {
            return n;
        }
    }
    0
}

// Node n is zero.
pub fn clear(tree: &mut [u32], n: usize)
    requires tree_len { length tree.old ≡ 1537 }
    requires n_bound { n ≤ 63 }
    ensures { Put tree.old n (λ j. 0) tree.new }
{
    let at = 1 + n * 24;
    fill(tree, at, at + 24, 0);
}
