// Freeing: the owners are taken out of the frame words, and settling merges what became free.
ghost use Rattle.std.specs.Prelude.{◌≡◌, ◌+◌, ◌≤◌, length};
ghost use Rattle.blocks.specs.FrameWords.{frame_buffer_words, largest_pool, owners_of, frame_words};
ghost use Rattle.blocks.specs.Owners.{cleared, freed};
ghost use Rattle.blocks.specs.Inner.Passes.{ClearedTo};

use crate::settling::settle;
use framewords::owners::in_span;

// The word without the n owners from `owner` on.
fn cleared(w: u32, owner: u32, n: u32) -> u32
    ensures { result ≡ cleared owner n w }
{
    if in_span(owner, n, w) { 0 } else { w }
}

// Takes the n owners from `owner` on out of the words below the pool size; settling sets the others, whatever they say.
fn clear(frames: &mut [u32], pool: u32, owner: u32, n: u32)
    requires frames_len { length frames.old ≡ frame_buffer_words }
    requires pool_le_largest_pool { pool ≤ largest_pool }
    ensures { ClearedTo frames.old owner n pool frames.new }
{
    for w in &mut frames[..pool as usize] {
        *w = cleared(*w, owner, n);
    }
}

// Frees every frame of the n owners from `owner` on.
pub fn release(frames: &mut [u32], pool: u32, owner: u32, n: u32)
    requires frames_len { length frames.old ≡ frame_buffer_words }
    requires pool_le_largest_pool { pool ≤ largest_pool }
    requires le_owner { 1 ≤ owner }
    requires n_bound { owner + n ≤ 4097 }
    ensures { frames.new ≡ frame_words pool (freed (owners_of frames.old) owner n) }
{
    clear(frames, pool, owner, n);
    settle(frames, pool);
}
