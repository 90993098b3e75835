// What a map would make of one space's pages. No frame word is written: marks say which blocks are chosen already.
ghost use Rattle.std.specs.Prelude.{◌≡◌, true, ◌+◌, ◌≤◌, length};
ghost use Rattle.std.proofs.Math.Option.{some};
ghost use Rattle.words.specs.Counts.{count};
ghost use Rattle.blocks.specs.FrameWords.{free_in, lawful};
ghost use Rattle.blocks.specs.Choice.{frames_for, block_count, HeldBefore};
ghost use Rattle.runs.specs.PageWords.{pages_in_space, allowed_rights};
ghost use Rattle.runs.specs.Runs.{range_count};
ghost use Rattle.runs.specs.Walk.{range_words};
ghost use Rattle.layout.specs.Changes.{wish_before, map_words};
ghost use Rattle.steps.specs.Inner.{wish_number};

use crate::mapping::{wish_before, write_block};
use blocks::{Frame, MARK_WORDS};
use frames::unchecked::{end_of, mark_block, nothing_known, size_of};
use ranges::renew::list_ranges;
use runs::{ENTRY_WORDS, Page, RANGE_WORDS};

// Writes the words that a map of n pages from the first on gives these pages; how many blocks it takes.
fn preview_blocks(
    frames: &[u32],
    part: &mut [u32],
    pool: u32,
    wish: Frame,
    first: Page,
    n: u32,
    rights: u32,
) -> u32
    requires frames_value { lawful pool frames.now ≡ true }
    requires part_len { length part.old ≡ pages_in_space }
    requires held_before { HeldBefore pool (free_in frames.now) wish.0 }
    requires n_bound { n ≤ count pool (free_in frames.now) }
    requires n_bound_2 { first.0 + n ≤ pages_in_space }
    requires rights_value { allowed_rights rights ≡ true }
    ensures value { result ≡ block_count pool (free_in frames.now) (some wish.0) n }
    ensures part_after { part.new ≡ map_words part.old first.0 n rights (frames_for pool (free_in frames.now) (some wish.0) n) }
{
    let page = first.0;
    let mut marks = [0u32; MARK_WORDS];
    let mut done: u32 = 0;
    let mut blocks: u32 = 0;
    let mut known = nothing_known();
    let mut next = wish;
    while done < n {
        let chosen = mark_block(frames, pool, next, n - done, known, &mut marks);
        let b = chosen.block;
        let size = size_of(b.order);
        write_block(part, Page(page + done), rights, b);
        known = chosen.known;
        done += size;
        blocks += 1;
        next = end_of(b);
    }
    blocks
}

// What a map costs: the blocks that it takes, and the ranges that its space then has.
#[derive(Clone, Copy)]
pub struct Cost {
    pub blocks: u32,
    pub ranges: u32,
}

// Maps n pages from the first on in the page words alone, and counts the ranges that they then have. What it leaves in the page words is of no use.
pub fn preview_space(
    frames: &[u32],
    part: &mut [u32],
    pool: u32,
    first: Page,
    n: u32,
    rights: u32,
) -> Cost
    requires frames_value { lawful pool frames.now ≡ true }
    requires part_len { length part.old ≡ pages_in_space }
    requires held_before { HeldBefore pool (free_in frames.now) (wish_number (wish_before part.old first.0)) }
    requires n_bound { n ≤ count pool (free_in frames.now) }
    requires n_bound_2 { first.0 + n ≤ pages_in_space }
    requires rights_value { allowed_rights rights ≡ true }
    ensures blocks_value { result.blocks ≡ block_count pool (free_in frames.now) (wish_before part.old first.0) n }
    ensures ranges_value { result.ranges ≡ range_count (range_words (map_words part.old first.0 n rights (frames_for pool (free_in frames.now) (wish_before part.old first.0) n))) }
{
    // Nothing reads the list, so the compiler need not clear it first.
    let mut ranges = [0u32; RANGE_WORDS];
    let wish = wish_before(part, first);
    let blocks = preview_blocks(frames, part, pool, wish, first, n, rights);
    let listed = list_ranges(part, &mut ranges);
    Cost {
        blocks,
        ranges: (listed / ENTRY_WORDS) as u32,
    }
}
