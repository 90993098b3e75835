// Settling: every frame word made from the owner words alone.
ghost use Rattle.std.specs.Prelude.{◌≡◌, true, ◌+◌, ◌≤◌, ◌<◌, eqb, length};
ghost use Rattle.std.proofs.Math.Option.{some};
ghost use Rattle.blocks.specs.FrameWords.{frame_buffer_words, largest_pool, owners_of, free_in, frame_words};
ghost use Rattle.blocks.specs.Inner.Around.{start_of, around, free_order};
ghost use Rattle.blocks.specs.Inner.Passes.{Edge, SettledTo};

use blocks::{BUFFER_WORDS, FREE_FIRST, FREE_OTHER, Frame, NO_FRAME};
use framewords::buffer::{all_free, owner_of, size_of, start_of};
use words::writes::fill;

// Whether frame f is the start of a block of order k.
pub fn can_start(f: Frame, k: u32) -> bool
    requires f_bound { f.0 < 4096 }
    requires k_bound { k ≤ 10 }
    ensures { result ≡ eqb (start_of k f.0) f.0 }
{
    start_of(f, k).0 == f.0
}

// Stays: two early returns, since `end` is worked out between them.
// Whether the wholly free block of order k at f is half of a wholly free one.
pub fn grows(frames: &[u32], pool: u32, f: Frame, k: u32) -> bool
    requires frames_len { length frames.now ≡ frame_buffer_words }
    requires pool_le_largest_pool { pool ≤ largest_pool }
    requires f_lt_pool { f.0 < pool }
    requires k_bound { k < 10 }
    requires edge { Edge pool (free_in frames.now) f.0 }
    requires k_value { around pool (free_in frames.now) f.0 k ≡ true }
    ensures { result ≡ around pool (free_in frames.now) f.0 (k + 1) }
{
    if !can_start(f, k + 1) {
        return false;
    }
    let half = f.0 + size_of(k);
    let end = f.0 + size_of(k + 1);
    if pool < end {
        return false;
    }
    all_free(frames, half as usize, end as usize)
}

// The order of the free block that starts at frame f.
pub fn grow(frames: &[u32], pool: u32, f: Frame) -> u32
    requires frames_len { length frames.now ≡ frame_buffer_words }
    requires pool_le_largest_pool { pool ≤ largest_pool }
    requires f_lt_pool { f.0 < pool }
    requires f_value { free_in frames.now f.0 ≡ true }
    requires edge { Edge pool (free_in frames.now) f.0 }
    ensures { free_order pool (free_in frames.now) f.0 ≡ some result }
{
    for k in 0..10 {
        if !grows(frames, pool, f, k) {
            return k;
        }
    }
    10
}

// Settles the held frame or the free block at f; answers the frame after it.
fn settle_at(frames: &mut [u32], pool: u32, f: Frame) -> Frame
    requires frames_len { length frames.old ≡ frame_buffer_words }
    requires pool_le_largest_pool { pool ≤ largest_pool }
    requires f_lt_pool { f.0 < pool }
    requires edge { Edge pool (free_in frames.old) f.0 }
    ensures { SettledTo pool frames.old f.0 result.0 frames.new }
{
    let at = f.0 as usize;
    if owner_of(frames[at]) != 0 {
        return Frame(f.0 + 1);
    }
    let k = grow(frames, pool, f);
    let end = f.0 + size_of(k);
    frames[at] = FREE_FIRST + k;
    fill(frames, at + 1, end as usize, FREE_OTHER);
    Frame(end)
}

// Rewrites every word from the owner words alone.
pub fn settle(frames: &mut [u32], pool: u32)
    requires frames_len { length frames.old ≡ frame_buffer_words }
    requires pool_le_largest_pool { pool ≤ largest_pool }
    ensures { frames.new ≡ frame_words pool (owners_of frames.old) }
{
    let mut f = Frame(0);
    // Stays: a step is as long as the block that it settles, so a range or an iterator over steps of one length is no plainer.
    while f.0 < pool {
        f = settle_at(frames, pool, f);
    }
    fill(frames, pool as usize, BUFFER_WORDS, NO_FRAME);
}

// The words of a pool whose frames are all free.
pub fn fresh(frames: &mut [u32], pool: u32)
    requires frames_len { length frames.old ≡ frame_buffer_words }
    requires pool_le_largest_pool { pool ≤ largest_pool }
    ensures { frames.new ≡ frame_words pool (λ g. 0) }
{
    fill(frames, 0, BUFFER_WORDS, 0);
    settle(frames, pool);
}
