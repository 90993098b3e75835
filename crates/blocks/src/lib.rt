// The frame pool's types. Definitions and laws stand in specs/ and proofs/; the code is in the crates `framewords`, `splitting`, `merging` and `frames`.
#![tactic(auto)]

// Pool sizes are 1 to 4,096.
pub const LARGEST_POOL: u32 = 4096;

pub const LAST_FRAME: u32 = 4095;

// The words of the frame buffer.
pub const BUFFER_WORDS: usize = 4096;

// Owners are 1 to 4,096; a frame word up to that names one.
pub const LARGEST_OWNER: u32 = 4096;

// The words of a free frame, the first one of its block (with the block's order) or another, and of a place at or above F.
pub const FREE_FIRST: u32 = 16384;

pub const FREE_OTHER: u32 = 8192;

pub const NO_FRAME: u32 = 65535;

// The orders of blocks are 0 to 10.
pub const ORDERS: u32 = 11;

// Stays: marks are words, one that says whether the rest is ahead and a bit for each frame: the definitions (`gone_at`) and `mark_block` of frames have them so, and memory is fixed.
// The words of the marks of a preview: whether the rest is ahead, and a bit for each frame (specs/Inner/Marks).
pub const MARK_WORDS: usize = 129;

// A frame number. A virtual page number never stands in its place.
#[derive(Clone, Copy)]
pub struct Frame(pub u32);

// A block of 2 to the power `order` frames from `start` on.
#[derive(Clone, Copy)]
pub struct Block {
    pub start: Frame,
    pub order: u32,
}

// What earlier searches have shown: no free block has an order above `limit`, and none of that order starts below `from`.
#[derive(Clone, Copy)]
pub struct Bound {
    pub limit: u32,
    pub from: Frame,
}

// A block, and the order of the free block in which it lies.
#[derive(Clone, Copy)]
pub struct Cut {
    pub block: Block,
    pub top: u32,
}

// The block chosen, and what is known for the next search.
#[derive(Clone, Copy)]
pub struct Chosen {
    pub block: Block,
    pub known: Bound,
}

// The calls on the pool, with their arguments; allocate takes as many frames as the list that it is lent has places, the first block at the wished frame where the rule says so.
#[derive(Clone, Copy)]
pub enum PoolCall {
    SetUp(u32),
    Check(u32),
    Count(u32),
    Allocate { pool: u32, owner: u32, wish: u32 },
    Free { pool: u32, owner: u32, count: u32 },
}
