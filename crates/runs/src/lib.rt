// Virtual pages. Definitions and laws of page words, runs and ranges stand in specs/ and proofs/; the code is the crate `ranges`.
#![tactic(auto)]

// Spaces 0 to 3, each with pages 0 to 1,023.
pub const SPACES: u32 = 4;

pub const LAST_SPACE: u32 = 3;

pub const PAGES: u32 = 1024;

pub const LAST_PAGE: u32 = 1023;

// The page words and the range words of a space.
pub const PAGE_WORDS: usize = 1024;

pub const RANGE_WORDS: usize = 512;

// The fewest pages of a range; the ranges that a space's table has room for, and the words of each.
pub const SMALLEST_RANGE: u32 = 8;

pub const RANGES: u32 = 128;

pub const ENTRY_WORDS: usize = 4;

// A virtual page number of a space. A frame number never stands in its place.
#[derive(Clone, Copy)]
pub struct Page(pub u32);
