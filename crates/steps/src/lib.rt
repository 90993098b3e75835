// The steps that alter pages. Each is lent the buffers of all spaces and lends on one space's 1,024 page words and 512 range words, where the words of a span change and range bits and range words are rebuilt. `preview_space` is lent a copy of one space's page words, and the frame words to read: what a map would make of them.
#![tactic(auto)]

mod mapping;
mod previewing;
mod protecting;
mod rewriting;
mod unmapping;

ghost use Rattle.std.specs.Prelude.{◌≡◌, true, ◌+◌, ◌*◌, ◌≤◌, length};
ghost use Rattle.runs.specs.PageWords.{pages_in_space, last_space, allowed_rights};
ghost use Rattle.words.specs.Counts.{count};
ghost use Rattle.blocks.specs.FrameWords.{lawful, owners_of, free_in, frame_words};
ghost use Rattle.blocks.specs.Choice.{frames_for, block_count};
ghost use Rattle.blocks.specs.Owners.{give};
ghost use Rattle.layout.specs.Tables.{page_buffer_words, range_buffer_words, space_pages, owner_at};
ghost use Rattle.layout.specs.Changes.{Rewritten, wish_before, map_words, unmap_words, mapped_in, protect_words, differing};

use crate::mapping::map_space;
pub use crate::previewing::{Cost, preview_space};
use crate::protecting::protect_space;
use crate::unmapping::unmap_space;
use runs::{PAGE_WORDS, PAGES, Page, RANGE_WORDS};
use std::ops::Range;

// Where the words of a space stand in a buffer that has N for each.
fn words_of<const N: usize>(space: u32) -> Range<usize>
    requires space_le_last_space { space ≤ last_space }
    requires n_bound { N ≤ 1024 }
    ensures start { result.start ≡ N * space }
    ensures end { result.end ≡ N * space + N }
{
    let start = N * (space as usize);
    start..start + N
}

// Stays: space, first page, count and rights are numbers, and a space's words slices, with their bounds as clauses: a call has just been judged, and a type for a span would be made in one line and taken apart in the next.
// Maps n pages from `first` on to frames that the map rule takes; how many blocks were taken.
pub fn map_pages(
    frames: &mut [u32],
    pages: &mut [u32],
    ranges: &mut [u32],
    pool: u32,
    space: u32,
    first: Page,
    n: u32,
    rights: u32,
) -> u32
    requires frames_value { lawful pool frames.old ≡ true }
    requires n_bound { n ≤ count pool (free_in frames.old) }
    requires pages_len { length pages.old ≡ page_buffer_words }
    requires ranges_len { length ranges.old ≡ range_buffer_words }
    requires space_le_last_space { space ≤ last_space }
    requires n_bound_2 { first.0 + n ≤ pages_in_space }
    requires rights_value { allowed_rights rights ≡ true }
    ensures value { result ≡ block_count pool (free_in frames.old) (wish_before (space_pages pages.old space) first.0) n }
    ensures frames_after { frames.new ≡ frame_words pool (give (owners_of frames.old) (owner_at space first.0) (frames_for pool (free_in frames.old) (wish_before (space_pages pages.old space) first.0) n)) }
    ensures rewritten { Rewritten space (map_words (space_pages pages.old space) first.0 n rights (frames_for pool (free_in frames.old) (wish_before (space_pages pages.old space) first.0) n)) pages.old ranges.old pages.new ranges.new }
{
    let owner = 1 + PAGES * space + first.0;
    let words = words_of::<PAGE_WORDS>(space);
    map_space(
        frames,
        &mut pages[words],
        &mut ranges[words_of::<RANGE_WORDS>(space)],
        pool,
        owner,
        first,
        n,
        rights,
    )
}

// Unmaps `count` pages from `first` on; how many of them were mapped.
pub fn unmap_pages(
    pages: &mut [u32],
    ranges: &mut [u32],
    space: u32,
    first: Page,
    count: u32,
) -> u32
    requires pages_len { length pages.old ≡ page_buffer_words }
    requires ranges_len { length ranges.old ≡ range_buffer_words }
    requires space_le_last_space { space ≤ last_space }
    requires count_bound { first.0 + count ≤ pages_in_space }
    ensures value { result ≡ mapped_in (space_pages pages.old space) first.0 count }
    ensures rewritten { Rewritten space (unmap_words (space_pages pages.old space) first.0 count) pages.old ranges.old pages.new ranges.new }
{
    unmap_space(
        &mut pages[words_of::<PAGE_WORDS>(space)],
        &mut ranges[words_of::<RANGE_WORDS>(space)],
        first,
        count,
    )
}

// Gives `count` pages from `first` on the rights; how many of them had others.
pub fn protect_pages(
    pages: &mut [u32],
    ranges: &mut [u32],
    space: u32,
    first: Page,
    count: u32,
    rights: u32,
) -> u32
    requires pages_len { length pages.old ≡ page_buffer_words }
    requires ranges_len { length ranges.old ≡ range_buffer_words }
    requires space_le_last_space { space ≤ last_space }
    requires count_bound { first.0 + count ≤ pages_in_space }
    requires rights_value { allowed_rights rights ≡ true }
    ensures value { result ≡ differing (space_pages pages.old space) first.0 count rights }
    ensures rewritten { Rewritten space (protect_words (space_pages pages.old space) first.0 count rights) pages.old ranges.old pages.new ranges.new }
{
    protect_space(
        &mut pages[words_of::<PAGE_WORDS>(space)],
        &mut ranges[words_of::<RANGE_WORDS>(space)],
        first,
        count,
        rights,
    )
}
