// One walk over the page words of each space: their runs and range words, the frames that they name, and how many pages are mapped.
ghost use Rattle.std.specs.Prelude.{◌≡◌, true, ◌+◌, ◌≤◌, ◌<◌, length, is_some, IfSome};
ghost use Rattle.runs.specs.PageWords.{pages_in_space, mapped, frame_in};
ghost use Rattle.words.specs.Counts.{count};
ghost use Rattle.words.specs.Searches.{all_from};
ghost use Rattle.blocks.specs.FrameWords.{frame_buffer_words, largest_pool};
ghost use Rattle.runs.specs.Inner.{Onward, Along};
ghost use Rattle.runs.specs.Runs.{range_words_in_space};
ghost use Rattle.layout.specs.Pointing.{page_ok};
ghost use Rattle.layout.specs.Tables.{page_buffer_words, range_buffer_words};
ghost use Rattle.tablecheck.specs.Inner.{page_mapped, page_fits, part_sound, space_sound, Named};

use ranges::lawful::{next_place, rest_fits, step_fits};
use ranges::page_words::{frame_in, mapped};
use ranges::run_end::RunEnd;
use ranges::running::{at_start, pass_page, pass_stretch};
use ranges::walk::{Stretch, over};
use runs::{PAGE_WORDS, PAGES, Page, RANGE_WORDS, SPACES};
use words::scans::counts_beside;

// A space that is checked, whose page words start at place `first` of the page buffer: its page words and range words, and what its mapped pages must agree with, the pool's frame words.
#[derive(Clone, Copy)]
struct Space<'a> {
    opened: bool,
    first: u32,
    part: &'a [u32],
    ranges: &'a [u32],
    frames: &'a [u32],
    pool: u32,
    ghost in_buffer: { first + pages_in_space ≤ page_buffer_words },
    ghost part_len: { length part.now ≡ pages_in_space },
    ghost ranges_len: { length ranges.now ≡ range_words_in_space },
    ghost frames_len: { length frames.now ≡ frame_buffer_words },
    ghost small_pool: { pool ≤ largest_pool },
}

impl Space<'_> {
    // Whether page word w at place i of the page buffer is unmapped, or the word of its frame names place i.
    // The way back, from held frames to their pages, has no test: it holds where as many pages are mapped as frames are held (law `by_count`).
    fn page_ok(&self, i: u32, w: u32) -> bool
        requires { i < page_buffer_words }
        ensures { result ≡ page_ok self.now.frames.now self.now.pool i w }
    {
        if !mapped(w) {
            return true;
        }
        let f = frame_in(w);
        f.0 < self.pool && self.frames[f.0 as usize] == i + 1
    }

    // Whether word w of page b is unmapped, or the space is open and the word of its frame names the page.
    fn page_fits(&self, b: Page, w: u32) -> bool
        requires { b.0 < pages_in_space }
        ensures { result ≡ page_fits self.now.opened self.now.frames.now self.now.pool (self.now.first + b.0) w }
    {
        if self.opened {
            return self.page_ok(self.first + b.0, w);
        }
        !mapped(w)
    }

    // A number of pages from page b on that extend the run of the mapped word w, with frames that are in the pool and have words that name them. The promise leaves how many.
    // Stays: no one function with `onward_from` of ranges, which has another bound and names no frames; what the two share is `counts_beside`.
    fn onward_fitting(&self, b: Page, w: u32) -> u32
        requires b_le_pages_in_space { b.0 ≤ pages_in_space }
        requires w_value { mapped w ≡ true }
        ensures onward { Onward self.now.part.now b.0 w result }
        ensures named { Named self.now.frames.now self.now.pool (frame_in w) (self.now.first + b.0) result }
    {
        let f = frame_in(w);
        if self.pool <= f.0 {
            return 0;
        }
        let most = (PAGES - b.0).min(self.pool - 1 - f.0);
        let from = b.0 as usize;
        let at = (f.0 + 1) as usize;
        let place = self.first + b.0;
        counts_beside(
            self.part,
            from,
            w + 1,
            self.frames,
            at,
            place + 1,
            most as usize,
        ) as u32
    }

    // The pages from page b on, after word w, that fit at once: unmapped ones, or those that extend the run of w and whose frames name them.
    fn over_fitting(&self, b: Page, w: u32) -> Stretch
        requires { b.0 ≤ pages_in_space }
        ensures along { Along self.now.part.now b.0 w result.pages result.mapped }
        ensures last_value { result.last ≡ w + result.mapped }
        ensures named { Named self.now.frames.now self.now.pool (frame_in w) (self.now.first + b.0) result.mapped }
    {
        if !mapped(w) {
            return over(self.part, b, w);
        }
        let pages = self.onward_fitting(b, w);
        Stretch {
            pages,
            mapped: pages,
            last: w + pages,
        }
    }
}

// How many pages of a space are mapped, where its words are sound.
fn walk_space(space: &Space<'_>) -> Option<u32>
    ensures sound_value { is_some result ≡ part_sound space.now.opened space.now.frames.now space.now.pool space.now.first space.now.part.now space.now.ranges.now }
    ensures mapped_value { IfSome result (λ m. m ≡ count pages_in_space (page_mapped space.now.part.now)) }
{
    let mut carried = at_start();
    let mut at: usize = 0;
    let mut m: u32 = 0;
    let mut i: u32 = 0;
    // Stays: a stretch is passed at once, so i rises by as much as `over_fitting` found, and no range or iterator of pages has such steps.
    while i < PAGES {
        let here = pass_page(space.part, Page(i), carried);
        let w = here.word;
        // Whether the run before page i goes on there (law `running-joins`); if not, it has ended.
        let on = 1 < here.length;
        let end = RunEnd {
            goes_on: on,
            at,
            limit: i,
            pages: carried.length,
            word: carried.word,
        };
        if !step_fits(space.ranges, end, w) {
            return None;
        }
        if !space.page_fits(Page(i), w) {
            return None;
        }
        at = next_place(end);
        let along = space.over_fitting(Page(i + 1), w);
        m += u32::from(0 < here.length) + along.mapped;
        carried = pass_stretch(space.part, Page(i + 1), here, along);
        i += 1 + along.pages;
    }
    if !rest_fits(space.ranges, at, carried.length, carried.word) {
        return None;
    }
    Some(m)
}

// How many pages of the four spaces are mapped, where the words of each are sound.
pub fn walk_spaces(
    mask: u32,
    frames: &[u32],
    pool: u32,
    pages: &[u32],
    ranges: &[u32],
) -> Option<u32>
    requires frames_len { length frames.now ≡ frame_buffer_words }
    requires pool_le_largest_pool { pool ≤ largest_pool }
    requires pages_len { length pages.now ≡ page_buffer_words }
    requires ranges_len { length ranges.now ≡ range_buffer_words }
    ensures sound_value { is_some result ≡ all_from 4 0 (space_sound mask frames.now pool pages.now ranges.now) }
    ensures mapped_value { IfSome result (λ m. m ≡ count page_buffer_words (page_mapped pages.now)) }
{
    let mut m: u32 = 0;
    for s in 0..SPACES {
        let a = PAGE_WORDS * (s as usize);
        let b = RANGE_WORDS * (s as usize);
        let space = Space {
            opened: control::is_open(mask, s),
            first: PAGES * s,
            part: &pages[a..a + PAGE_WORDS],
            ranges: &ranges[b..b + RANGE_WORDS],
            frames,
            pool,
        };
        m += walk_space(&space)?;
    }
    Some(m)
}
