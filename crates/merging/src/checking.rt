// The check whether a buffer is lawful: stretches of held frames, and between them free blocks whose words are compared with those that settling writes.
ghost use Rattle.std.specs.Prelude.{◌≡◌, true, ◌≤◌, ◌<◌, length, get_or, is_some, IfSome, MatchOption};
ghost use Rattle.words.specs.Counts.{count};
ghost use Rattle.blocks.specs.FrameWords.{frame_buffer_words, largest_pool, free_in, owned_in, lawful};
ghost use Rattle.blocks.specs.Inner.Passes.{Edge, Checked, Wrong};

use crate::settling::{can_start, grows};
use blocks::{BUFFER_WORDS, FREE_FIRST, FREE_OTHER, Frame, LARGEST_POOL, NO_FRAME, ORDERS};
use framewords::buffer::{held_to, size_of};
use words::scans::all_same;

// The frame after the free block of one frame at f, none where it is no block by itself.
// Such blocks are many in a broken-up pool. With their size known beforehand, the processor goes on to the next frame before it has the word.
fn single_at(frames: &[u32], pool: u32, f: Frame) -> Option<Frame>
    requires frames_len { length frames.now ≡ frame_buffer_words }
    requires pool_le_largest_pool { pool ≤ largest_pool }
    requires f_lt_pool { f.0 < pool }
    requires f_value { free_in frames.now f.0 ≡ true }
    requires edge { Edge pool (free_in frames.now) f.0 }
    requires f_value_2 { get_or frames.now f.0 0 ≡ 16384 }
    ensures { MatchOption result (Wrong pool frames.now) (λ r. Checked pool frames.now f.0 r.0) }
{
    if grows(frames, pool, f, 0) {
        return None;
    }
    Some(Frame(f.0 + 1))
}

// The frame after the free block at f, none where its words are not lawful.
// The words themselves are asked for the order; beside the block's own words only the other half of the next larger block is read, up to its first held frame or the chunk that has it.
fn block_at(frames: &[u32], pool: u32, f: Frame) -> Option<Frame>
    requires frames_len { length frames.now ≡ frame_buffer_words }
    requires pool_le_largest_pool { pool ≤ largest_pool }
    requires f_lt_pool { f.0 < pool }
    requires f_value { free_in frames.now f.0 ≡ true }
    requires edge { Edge pool (free_in frames.now) f.0 }
    ensures { MatchOption result (Wrong pool frames.now) (λ r. Checked pool frames.now f.0 r.0) }
{
    let at = f.0 as usize;
    let w = frames[at];
    if w == FREE_FIRST {
        return single_at(frames, pool, f);
    }
    if w < FREE_FIRST || FREE_FIRST + ORDERS <= w {
        return None;
    }
    let k = w - FREE_FIRST;
    if !can_start(f, k) {
        return None;
    }
    let end = f.0 + size_of(k);
    if pool < end || !all_same(frames, at + 1, end as usize, FREE_OTHER) {
        return None;
    }
    if k < 10 && grows(frames, pool, f, k) {
        return None;
    }
    Some(Frame(end))
}

// How many frames are held where the buffer is lawful for a pool of `pool` frames, none where it is not.
pub fn judge(frames: &[u32], pool: u32) -> Option<u32>
    ensures lawful_value { is_some result ≡ lawful pool frames.now }
    ensures held_value { IfSome result (λ h. h ≡ count pool (owned_in frames.now)) }
{
    if frames.len() != BUFFER_WORDS || pool < 1 || LARGEST_POOL < pool {
        return None;
    }
    let end = pool as usize;
    let mut f = held_to(frames, 0, end);
    let mut held = f;
    // Stays: a step is as long as the block and the held frames after it, so a range or an iterator over steps of one length is no plainer.
    while f < end {
        let after = block_at(frames, pool, Frame(f as u32))?.0 as usize;
        f = held_to(frames, after, end);
        held += f - after;
    }
    all_same(frames, end, BUFFER_WORDS, NO_FRAME).then_some(held as u32)
}

// Whether the buffer is lawful for a pool of `pool` frames.
pub fn lawful(frames: &[u32], pool: u32) -> bool
    ensures { result ≡ lawful pool frames.now }
{
    judge(frames, pool).is_some()
}
