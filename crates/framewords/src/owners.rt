// Counting free frames, and finding out which owners hold one.
ghost use Rattle.std.specs.Prelude.{◌≡◌, ℕ, ◌≤◌, ◌<◌, length, get_or};
ghost use Rattle.words.specs.Counts.{count};
ghost use Rattle.words.specs.Searches.{all_from, any_from};
ghost use Rattle.blocks.specs.FrameWords.{frame_buffer_words, largest_owner, largest_pool, owners_of, free_in};
ghost use Rattle.blocks.specs.Owners.{in_span, holds};
ghost use Rattle.blocks.specs.Inner.Passes.{MarkedOne, MarkedTo};

use crate::buffer::{one_if_free, owner_of};
use blocks::BUFFER_WORDS;
use words::scans::{all_same, chunks_to, words_to};

// How many frames of the pool are free, counted singly.
pub fn count_free(frames: &[u32], pool: u32) -> u32
    requires frames_len { length frames.now ≡ frame_buffer_words }
    requires pool_le_largest_pool { pool ≤ largest_pool }
    ensures { result ≡ count pool (free_in frames.now) }
{
    let mut n = 0;
    for w in &frames[..pool as usize] {
        n += one_if_free(*w);
    }
    n
}

// Whether w is one of the n owners from `owner` on.
pub fn in_span(owner: u32, n: u32, w: u32) -> bool
    ensures { result ≡ in_span owner n w }
{
    owner <= w && w - owner < n
}

// Whether one of the n owners from `owner` on holds a frame. By chunks, since mostly none does and every word is read.
pub fn any_held(frames: &[u32], pool: u32, owner: u32, n: u32) -> bool
    requires frames_len { length frames.now ≡ frame_buffer_words }
    requires pool_le_largest_pool { pool ≤ largest_pool }
    ensures { result ≡ any_from n owner (holds pool (owners_of frames.now)) }
{
    let end = pool as usize;
    let held = |g: usize| u32::from(in_span(owner, n, owner_of(frames[g])));
    let far = chunks_to::<16, _>(&held, 0, end);
    words_to(&held, far, end) != end
}

// Sets the mark of owner w if it is one of the n owners from `owner` on.
fn mark_one(marks: &mut [u32], owner: u32, n: u32, w: u32)
    requires { n ≤ length marks.old }
    ensures { MarkedOne owner n w marks.old marks.new }
{
    if in_span(owner, n, w) {
        marks[(w - owner) as usize] = 1;
    }
}

// Marks those of the n owners from `owner` on that hold a frame, where none is marked yet.
fn mark_held(frames: &[u32], pool: u32, owner: u32, n: u32, marks: &mut [u32])
    requires frames_len { length frames.now ≡ frame_buffer_words }
    requires pool_le_largest_pool { pool ≤ largest_pool }
    requires n_in_bounds { n ≤ length marks.old }
    requires unmarked { (t : ℕ) → t < n → get_or marks.old t 0 ≡ 0 }
    ensures { MarkedTo frames.now owner n pool marks.new }
{
    for w in &frames[..pool as usize] {
        mark_one(marks, owner, n, owner_of(*w));
    }
}

// Whether each of the n owners from `owner` on holds a frame.
pub fn all_held(frames: &[u32], pool: u32, owner: u32, n: u32) -> bool
    requires frames_len { length frames.now ≡ frame_buffer_words }
    requires pool_le_largest_pool { pool ≤ largest_pool }
    requires n_le_largest_owner { n ≤ largest_owner }
    ensures { result ≡ all_from n owner (holds pool (owners_of frames.now)) }
{
    let mut marks = [0u32; BUFFER_WORDS];
    mark_held(frames, pool, owner, n, &mut marks);
    all_same(&marks, 0, n as usize, 1)
}
