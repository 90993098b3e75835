// Taking frames, block after block.
ghost use Rattle.std.specs.Prelude.{◌≡◌, true, ◌+◌, ◌^◌, ◌<◌, ◌≤◌, length};
ghost use Rattle.words.specs.Counts.{count};
ghost use Rattle.blocks.specs.Blocks.{largest_order};
ghost use Rattle.blocks.specs.FrameWords.{frame_buffer_words, largest_pool, largest_owner, owners_of, free_in, lawful, frame_words};
ghost use Rattle.blocks.specs.Choice.{end_of};
ghost use Rattle.blocks.specs.Inner.Around.{start_of, other_half};
ghost use Rattle.blocks.specs.Inner.Taking.{Searched, BlockTaken, FramesTaken};
ghost use Rattle.blocks.specs.Inner.Passes.{Halved, PartOf, handed};

use crate::choosing::{Lent, chosen_by, nothing_known};
use blocks::{Block, Bound, Chosen, Cut, FREE_FIRST, Frame};
use framewords::buffer::{count_up, size_of, start_of};

// The start of the other half of the block of order k + 1 around s.
fn other_half(s: Frame, k: u32) -> Frame
    requires k_bound { k ≤ 9 }
    requires s_lt_largest_pool { s.0 < largest_pool }
    ensures { result.0 ≡ other_half k s.0 }
{
    let own = start_of(s, k);
    let low = start_of(s, k + 1);
    if low.0 == own.0 {
        return Frame(own.0 + size_of(k));
    }
    low
}

// Writes the first words of the halves that are left of the block of order `top` around s when its part of order `order` at s is taken.
fn halve(frames: &mut [u32], s: Frame, order: u32, top: u32)
    requires frames_len { length frames.old ≡ frame_buffer_words }
    requires order_le_top { order ≤ top }
    requires top_le_largest_order { top ≤ largest_order }
    requires top_bound { start_of top s.0 + 2 ^ top ≤ largest_pool }
    ensures { Halved frames.old s.0 order top frames.new }
{
    for k in order..top {
        frames[other_half(s, k).0 as usize] = FREE_FIRST + k;
    }
}

// Takes the block of the cut, any part of a free block, for the owners from `owner` on.
fn take_at(frames: &mut [u32], pool: u32, cut: Cut, owner: u32)
    requires frames_value { lawful pool frames.old ≡ true }
    requires part_of { PartOf pool frames.old cut.block.start.0 cut.block.order cut.top }
    requires le_owner { 1 ≤ owner }
    requires owner_le_largest_owner { owner ≤ largest_owner }
    ensures { frames.new ≡ frame_words pool (handed (owners_of frames.old) cut.block.order cut.block.start.0 owner) }
{
    let b = cut.block;
    let s = b.start.0 as usize;
    let size = size_of(b.order) as usize;
    count_up(frames, s, s + size, owner);
    halve(frames, b.start, b.order, cut.top);
}

// Takes the block that the map rule gives with this wish while `left` pages are left, for the owners from `owner` on; earlier searches have shown `known`.
pub fn take_block(
    frames: &mut [u32],
    pool: u32,
    owner: u32,
    wish: Frame,
    left: u32,
    known: Bound,
) -> Chosen
    requires frames_value { lawful pool frames.old ≡ true }
    requires le_left { 1 ≤ left }
    requires left_bound { left ≤ count pool (free_in frames.old) }
    requires le_owner { 1 ≤ owner }
    requires left_bound_2 { owner + left ≤ 4097 }
    requires searched { Searched pool (free_in frames.old) known }
    ensures { BlockTaken pool frames.old owner wish.0 left result frames.new }
{
    // One mark, 0, as are those that are not there: what is taken stands in the frame words.
    let lent = Lent {
        frames,
        pool,
        marks: &[0],
    };
    // There is one: at least as many frames are free as pages are left.
    let cut = lent.choose(wish, left, known).unwrap();
    take_at(frames, pool, cut, owner);
    chosen_by(cut, wish, left, known)
}

// The frame after a block, which is the wish of the next one.
pub fn end_of(b: Block) -> Frame
    requires order_le_largest_order { b.order ≤ largest_order }
    requires start_le_largest_pool { b.start.0 ≤ largest_pool }
    ensures { result.0 ≡ end_of b }
{
    let size = size_of(b.order);
    Frame(b.start.0 + size)
}

// Takes out.len() frames for the owners from `owner` on, in page order, by the map rule with this wish; how many blocks that took.
pub fn take_frames(frames: &mut [u32], pool: u32, owner: u32, wish: Frame, out: &mut [u32]) -> u32
    requires frames_value { lawful pool frames.old ≡ true }
    requires out_len_bound { length out.old ≤ count pool (free_in frames.old) }
    requires le_owner { 1 ≤ owner }
    requires out_bound { owner + length out.old ≤ 4097 }
    ensures { FramesTaken pool frames.old owner wish.0 (length out.old) result frames.new out.new }
{
    let n = out.len();
    let mut done: usize = 0;
    let mut blocks: u32 = 0;
    let mut known = nothing_known();
    let mut next = wish;
    // Stays: a `for` is no plainer: how far a step goes is what take_block answers.
    while done < n {
        let taken = take_block(
            frames,
            pool,
            owner + done as u32,
            next,
            (n - done) as u32,
            known,
        );
        let b = taken.block;
        let size = size_of(b.order) as usize;
        count_up(out, done, done + size, b.start.0);
        known = taken.known;
        done += size;
        blocks += 1;
        next = end_of(b);
    }
    blocks
}
