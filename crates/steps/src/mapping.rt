// Mapping pages of one space to frames, block after block.
ghost use Rattle.std.specs.Prelude.{◌≡◌, true, [], ◌∷◌, ◌+◌, ◌^◌, ◌≤◌, length};
ghost use Rattle.std.proofs.Math.Option.{some};
ghost use Rattle.runs.specs.PageWords.{pages_in_space, allowed_rights};
ghost use Rattle.words.specs.Counts.{count};
ghost use Rattle.blocks.specs.FrameWords.{largest_pool, owners_of, free_in, lawful, frame_words};
ghost use Rattle.blocks.specs.Choice.{frames_of, frames_for, block_count};
ghost use Rattle.blocks.specs.Owners.{give};
ghost use Rattle.runs.specs.Runs.{range_words_in_space};
ghost use Rattle.layout.specs.Changes.{wish_before, map_words};
ghost use Rattle.steps.specs.Inner.{wish_number, MapStep};

use blocks::{Block, Frame, LARGEST_POOL};
use frames::unchecked::{end_of, nothing_known, size_of, take_block};
use ranges::page_words::{frame_in, mapped, page_word};
use ranges::renew::renew;
use runs::Page;

// Writes the words of the pages from the first on, one for each frame of the block.
pub fn write_block(part: &mut [u32], first: Page, rights: u32, b: Block)
    requires part_len { length part.old ≡ pages_in_space }
    requires order_bound { b.order ≤ 10 }
    requires order_bound_2 { b.start.0 + 2 ^ b.order ≤ largest_pool }
    requires order_bound_3 { first.0 + 2 ^ b.order ≤ pages_in_space }
    requires rights_value { allowed_rights rights ≡ true }
    ensures { part.new ≡ map_words part.old first.0 (2 ^ b.order) rights (frames_of (b ∷ [])) }
{
    let page = first.0;
    let start = b.start;
    let frame = start.0;
    let size = size_of(b.order);
    for k in 0..size {
        let at = (page + k) as usize;
        let f = frame + k;
        part[at] = page_word(false, rights, Frame(f));
    }
}

// The wish for the first block of a map: the frame after that of the page before the span, or one that is no frame of any pool.
// Stays: take_block and mark_block (frames) take each wish as a frame, and `wish_number` says which frame is none.
pub fn wish_before(part: &[u32], first: Page) -> Frame
    requires part_len { length part.now ≡ pages_in_space }
    requires first_le_pages_in_space { first.0 ≤ pages_in_space }
    ensures { result.0 ≡ wish_number (wish_before part.now first.0) }
{
    let page = first.0;
    if page == 0 {
        return Frame(LARGEST_POOL);
    }
    let w = part[(page - 1) as usize];
    let there = mapped(w);
    if !there {
        return Frame(LARGEST_POOL);
    }
    let frame = frame_in(w);
    Frame(frame.0 + 1)
}

// Stays: `map_blocks`, `preview_blocks` and `take_frames` of the pool go over blocks alike, but what a step does and promises differs (the frame words, marks, a list), so one function over a closure would need three promises for it: no plainer.
// Takes frames for n pages from the first on, whose owners count up from `owner`, and writes these pages' words; how many blocks were taken.
fn map_blocks(
    frames: &mut [u32],
    part: &mut [u32],
    pool: u32,
    owner: u32,
    wish: Frame,
    first: Page,
    n: u32,
    rights: u32,
) -> u32
    requires frames_value { lawful pool frames.old ≡ true }
    requires part_len { length part.old ≡ pages_in_space }
    requires n_bound { n ≤ count pool (free_in frames.old) }
    requires le_owner { 1 ≤ owner }
    requires n_bound_2 { owner + n ≤ 4097 }
    requires n_bound_3 { first.0 + n ≤ pages_in_space }
    requires rights_value { allowed_rights rights ≡ true }
    ensures value { result ≡ block_count pool (free_in frames.old) (some wish.0) n }
    ensures frames_after { frames.new ≡ frame_words pool (give (owners_of frames.old) owner (frames_for pool (free_in frames.old) (some wish.0) n)) }
    ensures part_after { part.new ≡ map_words part.old first.0 n rights (frames_for pool (free_in frames.old) (some wish.0) n) }
{
    let page = first.0;
    let mut done: u32 = 0;
    let mut blocks: u32 = 0;
    let mut known = nothing_known();
    let mut next = wish;
    while done < n {
        let taken = take_block(frames, pool, owner + done, next, n - done, known);
        let b = taken.block;
        let size = size_of(b.order);
        write_block(part, Page(page + done), rights, b);
        known = taken.known;
        done += size;
        blocks += 1;
        next = end_of(b);
    }
    blocks
}

// Maps n pages from the first on to frames that the map rule takes; how many blocks were taken.
pub fn map_space(
    frames: &mut [u32],
    part: &mut [u32],
    ranges: &mut [u32],
    pool: u32,
    owner: u32,
    first: Page,
    n: u32,
    rights: u32,
) -> u32
    requires frames_value { lawful pool frames.old ≡ true }
    requires part_len { length part.old ≡ pages_in_space }
    requires ranges_len { length ranges.old ≡ range_words_in_space }
    requires n_bound { n ≤ count pool (free_in frames.old) }
    requires le_owner { 1 ≤ owner }
    requires n_bound_2 { owner + n ≤ 4097 }
    requires n_bound_3 { first.0 + n ≤ pages_in_space }
    requires rights_value { allowed_rights rights ≡ true }
    ensures { MapStep pool frames.old part.old owner first.0 n rights result frames.new part.new ranges.new }
{
    let wish = wish_before(part, first);
    let blocks = map_blocks(frames, part, pool, owner, wish, first, n, rights);
    renew(part, ranges);
    blocks
}
