// Rows of ranges and children, read before nodes are written.
ghost use Rattle.std.specs.Prelude.{◌≡◌, ◌+◌, ◌≤◌, ◌<◌, ℕ, length, get_or};
ghost use Rattle.trees.specs.Nodes.{count_in, range_in, child_in};
ghost use Rattle.trees.specs.Inner.Places.{opened, placed, closed, behind};
ghost use Rattle.trees.specs.Inner.Standing.{OpenedLine};
ghost use Rattle.trees.specs.Inner.Shrinking.{JoinedLine, ClosedLine, PlacedLine};

use crate::reading::range_at;
use std::array;
use trees::{Line, Range};

// The ranges of node n.
fn ranges_of(tree: &[u32], n: usize) -> [Range; 4]
    requires tree_len { length tree.now ≡ 1537 }
    requires n_bound { n ≤ 63 }
    ensures { (d : Range) (j : ℕ) → j < 4 → get_or result j d ≡ range_in tree.now n j }
{
    array::from_fn(|i| range_at(tree, n, i))
}

// The children of node n.
fn kids_of(tree: &[u32], n: usize) -> [u32; 5]
    requires tree_len { length tree.now ≡ 1537 }
    requires n_bound { n ≤ 63 }
    ensures { (d j : ℕ) → j < 5 → get_or result j d ≡ child_in tree.now n j }
{
    let at = 1 + n * 24 + 18;
    array::from_fn(|i| tree[at + i])
}

// What stands at place j of a row, `other` behind its end.
fn at<T: Copy>(row: &[T], j: usize, other: T) -> T
    ensures { result ≡ get_or row.now j other }
{
    row.get(j).copied().unwrap_or(other)
}

// A row with x put in at place i, and what stood there and behind it one place further.
fn opened<T: Copy, const N: usize>(row: &[T], i: usize, x: T) -> [T; N]
    ensures { (d : T) (j : ℕ) → j < N → get_or result j d ≡ opened (λ k. get_or row.now k x) i x j }
{
    array::from_fn(
        |j|
            ensures { result ≡ opened (λ k. get_or row.entry.now k x) i x j }
        {
            if j < i {
                at(row, j, x)
            } else if j == i {
                x
            } else {
                at(row, j - 1, x)
            }
        },
    )
}

// The ranges and children of node n with s and x at place i.
pub fn opened_line(tree: &[u32], n: usize, i: usize, s: Range, x: u32) -> Line
    requires tree_len { length tree.now ≡ 1537 }
    requires n_bound { (n ≤ 63) × (i ≤ 4) }
    ensures { OpenedLine tree.now n i s x result.ranges result.kids }
{
    Line {
        ranges: opened(&ranges_of(tree, n), i, s),
        kids: opened(&kids_of(tree, n), i + 1, x),
    }
}

// The first c of x, and those of y behind them.
fn joined<T: Copy, const N: usize>(x: &[T], c: usize, y: &[T], other: T) -> [T; N]
    ensures { (d : T) (j : ℕ) → j < N → get_or result j d ≡ behind (λ k. get_or x.now k other) c (λ k. get_or y.now k other) j }
{
    array::from_fn(
        |j|
            ensures { result ≡ behind (λ k. get_or x.entry.now k other) c (λ k. get_or y.entry.now k other) j }
        {
            if j < c {
                at(x, j, other)
            } else {
                at(y, j - c, other)
            }
        },
    )
}

// The ranges of nodes x and y with s between them, and the children of both; cx is the count of x.
pub fn joined_line(tree: &[u32], x: usize, cx: usize, s: Range, y: usize) -> Line
    requires tree_len { length tree.now ≡ 1537 }
    requires x_bound { (x ≤ 63) × ((y ≤ 63) × ((cx ≡ count_in tree.now x) × ((cx ≤ 4) × (count_in tree.now y ≤ 4)))) }
    requires y_bound { cx + count_in tree.now y ≤ 5 }
    ensures { JoinedLine tree.now x s y result.ranges result.kids }
{
    let right: [Range; 5] = opened(&ranges_of(tree, y), 0, s);
    Line {
        ranges: joined(&ranges_of(tree, x), cx, &right, s),
        kids: joined(&kids_of(tree, x), cx + 1, &kids_of(tree, y), 0),
    }
}

// A row without what stands at place i, and what stood behind it one place nearer.
fn closed<T: Copy, const N: usize>(row: &[T], i: usize, other: T) -> [T; N]
    requires { N ≤ 16 }
    ensures { (d : T) (j : ℕ) → j < N → get_or result j d ≡ closed (λ k. get_or row.now k other) i j }
{
    array::from_fn(
        |j|
            requires { j < 16 }
            ensures { result ≡ closed (λ k. get_or row.entry.now k other) i j }
        {
            if j < i {
                at(row, j, other)
            } else {
                at(row, j + 1, other)
            }
        },
    )
}

// The row of node n without its range at place i and the child behind it.
pub fn closed_line(tree: &[u32], n: usize, i: usize) -> Line
    requires tree_len { length tree.now ≡ 1537 }
    requires n_bound { (n ≤ 63) × (i ≤ 4) }
    ensures { ClosedLine tree.now n i result.ranges result.kids }
{
    Line {
        ranges: closed(&ranges_of(tree, n), i, Range::default()),
        kids: closed(&kids_of(tree, n), i + 1, 0),
    }
}

// The row of node n with range s at place i.
pub fn placed_line(tree: &[u32], n: usize, i: usize, s: Range) -> Line
    requires tree_len { length tree.now ≡ 1537 }
    requires n_bound { n ≤ 63 }
    ensures { PlacedLine tree.now n i s result.ranges result.kids }
{
    let ranges = ranges_of(tree, n);
    let kids = kids_of(tree, n);
    Line {
        ranges: array::from_fn(
            |j|
                ensures { result ≡ placed (λ k. get_or ranges k s) i s j }
            { if j == i { s } else { at(&ranges, j, s) } },
        ),
        kids: array::from_fn(|j| at(&kids, j, 0)),
    }
}
