// Range bits and range words rebuilt.
ghost use Rattle.std.specs.Prelude.{◌≡◌, ◌+◌, ◌≤◌, length, take};
ghost use Rattle.std.proofs.lemmas.List.Edits.{sets};
ghost use Rattle.runs.specs.PageWords.{pages_in_space};
ghost use Rattle.runs.specs.Walk.{entry_of, ended, with_bits, entries, range_words};
ghost use Rattle.runs.specs.Inner.{Marked, EndedRun, zero_from};
ghost use Rattle.runs.specs.Runs.{range_words_in_space, words_in_table_entry};

use crate::page_words::{bit_word, frame_in, offset, range_bit, rights_in};
use crate::run_end::RunEnd;
use crate::walk::{goes_on, joined, over};
use runs::{ENTRY_WORDS, PAGES, Page, SMALLEST_RANGE};

// Sets or clears the range bit of n pages from page a on.
fn mark(part: &mut [u32], a: Page, n: u32, bit: bool)
    requires { a.0 + n ≤ length part.old }
    ensures { Marked bit part.old a.0 n part.new }
{
    let first = a.0 as usize;
    for w in &mut part[first..first + n as usize] {
        *w = bit_word(bit, *w);
    }
}

// The entry of the run.
pub(crate) fn entry(end: RunEnd) -> [u32; ENTRY_WORDS]
    requires { 1 ≤ end.limit }
    ensures { result ≡ entry_of end.limit end.pages end.word }
{
    [
        end.limit - end.pages,
        end.limit,
        offset(frame_in(end.word), Page(end.limit - 1)),
        rights_in(end.word),
    ]
}

// Writes the entry of the run at its place.
fn put(ranges: &mut [u32], end: RunEnd)
    requires ranges_len { length ranges.old ≡ range_words_in_space }
    requires entry_room { end.at + words_in_table_entry ≤ range_words_in_space }
    requires some { 1 ≤ end.limit }
    ensures { ranges.new ≡ sets ranges.old end.at (entry_of end.limit end.pages end.word) }
{
    ranges[end.at..end.at + ENTRY_WORDS].copy_from_slice(&entry(end));
}

// Closes the run where it ends, and answers the place of the next entry.
fn end_run(part: &mut [u32], ranges: &mut [u32], end: RunEnd) -> usize
    requires part_len { length part.old ≡ pages_in_space }
    requires ranges_len { length ranges.old ≡ range_words_in_space }
    ensures { EndedRun part.old ranges.old end.goes_on end.at end.limit end.pages end.word result part.new ranges.new }
{
    if end.goes_on {
        return end.at;
    }
    let first = Page(end.limit - end.pages);
    if end.pages < SMALLEST_RANGE {
        mark(part, first, end.pages, false);
        return end.at;
    }
    mark(part, first, end.pages, true);
    put(ranges, end);
    end.at + ENTRY_WORDS
}

// Rebuilds a space's range bits from its frames and rights, and lists its ranges from the first range word on; how many words their entries take. What stands behind these is not said.
pub fn list_ranges(part: &mut [u32], ranges: &mut [u32]) -> usize
    requires part_len { length part.old ≡ pages_in_space }
    requires ranges_len { length ranges.old ≡ range_words_in_space }
    ensures part_after { part.new ≡ with_bits part.old }
    ensures value { result ≡ length (entries part.old) }
    ensures ranges_after { take result ranges.new ≡ entries part.old }
{
    let mut n: u32 = 0;
    let mut v: u32 = 0;
    let mut at: usize = 0;
    let mut i: u32 = 0;
    // Stays: a stretch is passed at once, so i rises by as much as `over` found, and no range or iterator of pages has such steps.
    while i < PAGES {
        let w = part[i as usize];
        let end = RunEnd {
            goes_on: joined(v, w),
            at,
            limit: i,
            pages: n,
            word: v,
        };
        at = end_run(part, ranges, end);
        part[i as usize] = bit_word(range_bit(w), w);
        let along = over(part, Page(i + 1), w);
        n = goes_on(n, v, w) + along.mapped;
        v = along.last;
        i += 1 + along.pages;
    }
    let end = RunEnd {
        goes_on: false,
        at,
        limit: PAGES,
        pages: n,
        word: v,
    };
    end_run(part, ranges, end)
}

// Rebuilds a space's range bits and range words from its frames and rights.
pub fn renew(part: &mut [u32], ranges: &mut [u32])
    requires part_len { length part.old ≡ pages_in_space }
    requires ranges_len { length ranges.old ≡ range_words_in_space }
    ensures part_after { part.new ≡ with_bits part.old }
    ensures ranges_after { ranges.new ≡ range_words part.old }
{
    let at = list_ranges(part, ranges);
    ranges[at..].fill(0);
}
