// The check of range bits and range words: what the walk over a space's pages tests at each page and at its end.
ghost use Rattle.std.specs.Prelude.{◌≡◌, ◌+◌, ◌≤◌, false, length};
ghost use Rattle.runs.specs.PageWords.{pages_in_space};
ghost use Rattle.words.specs.Tables.{part};
ghost use Rattle.runs.specs.Walk.{entry_of, ended};
ghost use Rattle.runs.specs.Inner.{Decides, EndFits, WordFits, zero_from};
ghost use Rattle.runs.specs.Runs.{range_words_in_space, words_in_table_entry};

use crate::page_words::{allowed_rights, mapped, range_bit, rights_in};
use crate::renew::entry;
use crate::run_end::RunEnd;
use runs::{ENTRY_WORDS, PAGES, SMALLEST_RANGE};
use words::scans::all_zero;

// Whether the entry of the run stands at its place.
fn entry_is(ranges: &[u32], end: RunEnd) -> bool
    requires ranges_len { length ranges.now ≡ range_words_in_space }
    requires entry_room { end.at + words_in_table_entry ≤ range_words_in_space }
    requires some { 1 ≤ end.limit }
    ensures { Decides result (part end.at 4 ranges.now ≡ entry_of end.limit end.pages end.word) }
{
    ranges[end.at..end.at + ENTRY_WORDS] == entry(end)[..]
}

// Whether range bit and entry of the run are right where it ends.
fn end_fits(ranges: &[u32], end: RunEnd) -> bool
    requires { length ranges.now ≡ range_words_in_space }
    ensures { Decides result (EndFits ranges.now end.goes_on end.at end.limit end.pages end.word) }
{
    if end.goes_on {
        return true;
    }
    if end.pages < SMALLEST_RANGE {
        return !range_bit(end.word);
    }
    range_bit(end.word) && entry_is(ranges, end)
}

// Whether word w after word v is of the layout, and has the range bit of v where it extends the run.
fn word_fits(on: bool, v: u32, w: u32) -> bool
    ensures { Decides result (WordFits on v w) }
{
    if !mapped(w) {
        return w == 0;
    }
    allowed_rights(rights_in(w)) && (!on || range_bit(w) == range_bit(v))
}

// Whether the run fits where it ends, and word w of the next page fits after its last word.
pub fn step_fits(ranges: &[u32], end: RunEnd, w: u32) -> bool
    requires { length ranges.now ≡ range_words_in_space }
    ensures { Decides result (EndFits ranges.now end.goes_on end.at end.limit end.pages end.word × WordFits end.goes_on end.word w) }
{
    end_fits(ranges, end) && word_fits(end.goes_on, end.word, w)
}

// The place of the next entry, after that of the run.
pub fn next_place(end: RunEnd) -> usize
    ensures { result ≡ end.at + length (ended end.goes_on end.limit end.pages end.word) }
{
    if end.goes_on || end.pages < SMALLEST_RANGE {
        return end.at;
    }
    end.at + ENTRY_WORDS
}

// Whether the range words from place `at` on are zero.
fn zeros_from(ranges: &[u32], at: usize) -> bool
    requires { at ≤ length ranges.now }
    ensures { Decides result (ranges.now ≡ zero_from ranges.now at) }
{
    all_zero(ranges, at, ranges.len())
}

// Whether the last run fits at its end, page 1,024, and the range words after its entry are zero.
pub fn rest_fits(ranges: &[u32], at: usize, n: u32, v: u32) -> bool
    requires ranges_len { length ranges.now ≡ range_words_in_space }
    requires v_bound { at + length (ended false pages_in_space n v) ≤ range_words_in_space }
    requires n_le_pages_in_space { n ≤ pages_in_space }
    ensures { Decides result (EndFits ranges.now false at pages_in_space n v × (ranges.now ≡ zero_from ranges.now (at + length (ended false pages_in_space n v)))) }
{
    let end = RunEnd {
        goes_on: false,
        at,
        limit: PAGES,
        pages: n,
        word: v,
    };
    end_fits(ranges, end) && zeros_from(ranges, next_place(end))
}
