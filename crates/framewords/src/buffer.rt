// Reading and writing stretches of words of a lent buffer.
ghost use Rattle.std.specs.Prelude.{not, ◌≡◌, true, ◌+◌, ◌-◌, ◌^◌, ◌≤◌, ◌<◌, eqb, length};
ghost use Rattle.words.specs.Counts.{one-if};
ghost use Rattle.words.specs.Searches.{all_from};
ghost use Rattle.words.specs.Inner.{PassTo, CountedUp};
ghost use Rattle.blocks.specs.FrameWords.{owner_of, free_in};
ghost use Rattle.blocks.specs.Inner.Around.{start_of};
ghost use Rattle.blocks.specs.Inner.Passes.{HeldTo};

use blocks::{Frame, LARGEST_OWNER};
use words::scans::{chunks_to, words_to};

// Stays: 0 for none, and no Option: `owner_of` (blocks/specs/FrameWords) has it so, and `one_if_free` and the scans count on it.
// The owner that a frame word names, 0 for a free frame.
pub fn owner_of(w: u32) -> u32
    ensures { result ≡ owner_of w }
{
    if w <= LARGEST_OWNER { w } else { 0 }
}

// 1 for the word of a frame without an owner, else 0.
pub fn one_if_free(w: u32) -> u32
    ensures value { result ≡ one-if (eqb (owner_of w) 0) }
    ensures upper_bound { result ≤ 1 }
{
    u32::from(owner_of(w) == 0)
}

// How many frames a block of order k has.
pub fn size_of(k: u32) -> u32
    requires { k ≤ 10 }
    ensures { result ≡ 2 ^ k }
{
    1u32 << k
}

// The first frame of the block of order k that holds frame f.
pub fn start_of(f: Frame, k: u32) -> Frame
    requires { k ≤ 10 }
    ensures { result.0 ≡ start_of k f.0 }
{
    let g = f.0;
    Frame((g >> k) << k)
}

// Stays: `free_chunks` and `held_chunks` each by itself: one closure over `chunks_to`, which is the generic scan.
// A place up to which the frames from `from` on are free, chunk after chunk. Not inlined: so its callers, mostly asked for a few frames, stay small.
#[inline(never)]
fn free_chunks(frames: &[u32], from: usize, end: usize) -> usize
    requires end_in_bounds { end ≤ length frames.now }
    requires from_le_end { from ≤ end }
    ensures { PassTo (free_in frames.now) from end result }
{
    let held = |g: usize| owner_of(frames[g]);
    chunks_to::<16, _>(&held, from, end)
}

// The same of held frames.
#[inline(never)]
fn held_chunks(frames: &[u32], from: usize, end: usize) -> usize
    requires end_in_bounds { end ≤ length frames.now }
    requires from_le_end { from ≤ end }
    ensures { PassTo (λ g. not (free_in frames.now g)) from end result }
{
    let free = |g: usize| one_if_free(frames[g]);
    chunks_to::<16, _>(&free, from, end)
}

// Whether the frames from `from` up to `end` are free.
pub fn all_free(frames: &[u32], from: usize, end: usize) -> bool
    requires end_in_bounds { end ≤ length frames.now }
    requires from_le_end { from ≤ end }
    ensures { result ≡ all_from (end - from) from (free_in frames.now) }
{
    let held = |g: usize| owner_of(frames[g]);
    if end - from < 16 {
        return words_to(&held, from, end) == end;
    }
    let far = free_chunks(frames, from, end);
    words_to(&held, far, end) == end
}

// The first free frame from `from` on, and before `end`, or else `end`. Four frames are read singly first, since short stretches are not worth a chunk.
pub fn held_to(frames: &[u32], from: usize, end: usize) -> usize
    requires end_in_bounds { end ≤ length frames.now }
    requires from_le_end { from ≤ end }
    ensures held_to { HeldTo frames.now from end result }
    ensures result_value { (result ≡ end → ⊥) → free_in frames.now result ≡ true }
{
    let free = |g: usize| one_if_free(frames[g]);
    if end - from < 4 {
        return words_to(&free, from, end);
    }
    let near = words_to(&free, from, from + 4);
    if near < from + 4 {
        return near;
    }
    let far = held_chunks(frames, near, end);
    words_to(&free, far, end)
}

// Sets the words from `from` up to `end` to first, first + 1, ..
pub fn count_up(words: &mut [u32], from: usize, end: usize, first: u32)
    requires end_in_bounds { end ≤ length words.old }
    requires from_le_end { from ≤ end }
    requires from_bound { first + (end - from) ≤ 8192 }
    ensures { CountedUp words.old from end first words.new }
{
    for g in from..end {
        words[g] = first + (g - from) as u32;
    }
}
