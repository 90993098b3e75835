// The types of the range tree. Definitions and laws stand in specs/ and proofs/; the code is in the crates above.
#![tactic(auto)]

// How many words a tree's buffer has: the number of its root, then 64 nodes of 24 words. Code that reads or writes them has these numbers as they stand in the layout.
pub const TREE_WORDS: usize = 1537;

// The root's number where the tree is empty.
// Stays: the layout of the buffer has this number for none (`root_of`, which kernels read), so an Option would be made of it and back at each call.
pub const NO_ROOT: u32 = 64;

// A range as the list has it: pages from BASE up to LIMIT, LIMIT left out; the frame of page p is p + OFFSET modulo 2 to the power 32.
#[derive(Clone, Copy, Debug, Default, PartialEq, Eq)]
pub struct Range {
    pub base: u32,
    pub limit: u32,
    pub offset: u32,
    pub rights: u32,
}

// What a search met: the first range that ends behind the page, if there is one, and how many nodes it visited.
#[derive(Clone, Copy, Debug, PartialEq, Eq)]
pub struct Path {
    pub range: Option<Range>,
    pub nodes: u32,
}

// How far a check of the tree has come, where all is lawful so far: the lowest BASE that may follow, and which nodes were met.
#[derive(Clone, Copy, Debug, PartialEq, Eq)]
pub struct Walk {
    pub low: u32,
    pub seen: [bool; 64],
}

// What goes up where an insertion has parted a subtree: a range, and the further node behind it.
#[derive(Clone, Copy, Debug, PartialEq, Eq)]
pub struct Up {
    pub range: Range,
    pub node: u32,
}

// Ranges and children that are to stand in one node or two: at most six and seven are, with a place to spare.
#[derive(Clone, Copy, Debug, PartialEq, Eq)]
pub struct Line {
    pub ranges: [Range; 7],
    pub kids: [u32; 8],
}
