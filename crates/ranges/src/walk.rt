// Steps of the walk over page words: over one page, w being its word and v the word before it, or over a stretch of pages at once.
ghost use Rattle.std.specs.Prelude.{◌≡◌, ◌+◌, ◌≤◌, true, length};
ghost use Rattle.runs.specs.PageWords.{pages_in_space, mapped};
ghost use Rattle.runs.specs.Walk.{joins, goes_on};
ghost use Rattle.runs.specs.Inner.{Empty, Onward, Along};

use crate::page_words::{frame_in, mapped, rights_in};
use blocks::LAST_FRAME;
use runs::{PAGE_WORDS, PAGES, Page};
use words::scans::{counts_beside, zero_to};

// Whether w extends the run of v.
pub fn joined(v: u32, w: u32) -> bool
    ensures { result ≡ joins v w }
{
    mapped(v) && mapped(w) && frame_in(w).0 == frame_in(v).0 + 1 && rights_in(w) == rights_in(v)
}

// The running length at w, where it is n at v.
pub fn goes_on(n: u32, v: u32, w: u32) -> u32
    requires { n ≤ pages_in_space }
    ensures { result ≡ goes_on n v w }
{
    if joined(v, w) {
        return n + 1;
    }
    u32::from(mapped(w))
}

// How many pages from page b on extend the run of word v before them, by words that count up from it. The promise leaves how far.
// The scan reads two stretches side by side, for the check of the tables; here both are the same.
fn onward_from(part: &[u32], b: Page, v: u32) -> u32
    requires part_len { length part.now ≡ pages_in_space }
    requires b_le_pages_in_space { b.0 ≤ pages_in_space }
    requires v_value { mapped v ≡ true }
    ensures { Onward part.now b.0 v result }
{
    let f = frame_in(v);
    let from = b.0 as usize;
    let most = (PAGES - b.0).min(LAST_FRAME - f.0);
    counts_beside(part, from, v + 1, part, from, v + 1, most as usize) as u32
}

// A stretch of pages that a walk passes at once, how many of them are mapped, all or none, and the word before its end.
#[derive(Clone, Copy)]
pub struct Stretch {
    pub pages: u32,
    pub mapped: u32,
    pub last: u32,
}

// How many pages from page b on are unmapped.
fn empty_from(part: &[u32], b: Page) -> u32
    requires part_len { length part.now ≡ pages_in_space }
    requires b_le_pages_in_space { b.0 ≤ pages_in_space }
    ensures { Empty part.now b.0 result }
{
    let from = b.0 as usize;
    let end = zero_to(part, from, PAGE_WORDS);
    (end - from) as u32
}

// The pages from page b on, after word w, that a walk passes at once: unmapped ones, or those that extend the run of w.
pub fn over(part: &[u32], b: Page, w: u32) -> Stretch
    requires part_len { length part.now ≡ pages_in_space }
    requires b_le_pages_in_space { b.0 ≤ pages_in_space }
    ensures along { Along part.now b.0 w result.pages result.mapped }
    ensures last_value { result.last ≡ w + result.mapped }
{
    if w == 0 {
        let pages = empty_from(part, b);
        return Stretch {
            pages,
            mapped: 0,
            last: 0,
        };
    }
    if !mapped(w) {
        return Stretch {
            pages: 0,
            mapped: 0,
            last: w,
        };
    }
    let pages = onward_from(part, b, w);
    Stretch {
        pages,
        mapped: pages,
        last: w + pages,
    }
}
