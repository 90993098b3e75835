// What a unit holds once a page was found.
ghost use Rattle.std.specs.Prelude.{◌≡◌, ◌≤◌, length};
ghost use Rattle.std.specs.Option.{unwrap_or};
ghost use Rattle.runs.specs.PageWords.{range_bit, rights_in, frame_in};
ghost use Rattle.runs.specs.Runs.{range_words_in_space};
ghost use Rattle.history.specs.Units.{no_range, largest_place, frame_by};
ghost use Rattle.history.specs.Translate.{entry_for, with_page, with_last, with_range, table_entry, table_range, with_table_range, installed};

use history::{Finding, PAGE_PLACES, PageEntry, RANGE_PLACES, RangeEntry, Unit};
use ranges::page_words::range_bit;
use runs::{ENTRY_WORDS, Page, RANGES};

// The unit with the page entry at the place of its page.
#[tactic(auto, unfolding(history::specs::Translate::with_page))]
fn with_page(mut u: Unit, e: PageEntry) -> Unit
    ensures { result ≡ with_page u e }
{
    u.pages[(e.page % PAGE_PLACES) as usize] = e;
    u
}

// The unit with the range entry at place k as last used.
#[tactic(auto, unfolding(history::specs::Translate::with_last))]
fn with_last(u: Unit, k: u32) -> Unit
    ensures { result ≡ with_last u k }
{
    Unit { last: k, ..u }
}

// Stays: that the next place is one is a clause, here and in units: a unit that is lent may be malformed (`unit_ok`), so its type cannot say so.
// The unit with the range entry at the place to replace, which is then last used.
#[tactic(auto, unfolding(history::specs::Translate::with_range))]
fn with_range(mut u: Unit, e: RangeEntry) -> Unit
    requires { u.next ≤ largest_place }
    ensures { result ≡ with_range u e }
{
    u.ranges[u.next as usize] = e;
    u.last = u.next;
    u.next = (u.next + 1) % RANGE_PLACES;
    u
}

// Entry j of the range table of space s, as a unit holds it.
fn table_entry(s: u32, ranges: &[u32], j: u32) -> RangeEntry
    requires ranges_len { length ranges.now ≡ range_words_in_space }
    requires j_bound { j ≤ 127 }
    ensures { result ≡ table_entry s ranges.now j }
{
    let at = ENTRY_WORDS * (j as usize);
    RangeEntry {
        valid: 1,
        space: s,
        base: ranges[at],
        limit: ranges[at + 1],
        offset: ranges[at + 2],
        rights: ranges[at + 3],
    }
}

// The entry of the range table of space s that covers page p.
fn table_range(s: u32, ranges: &[u32], p: Page) -> Option<RangeEntry>
    requires { length ranges.now ≡ range_words_in_space }
    ensures { unwrap_or result no_range ≡ table_range s ranges.now p.0 }
{
    for j in 0..RANGES {
        let e = table_entry(s, ranges, j);
        if e.covers(s, p) {
            return Some(e);
        }
    }
    None
}

// The unit once page p of space s was found so. Way 2 installs the page entry and sets last used; way 3 installs the page entry and, if the range bit is set, the range.
#[tactic(auto, unfolding(history::specs::Translate::installed, history::specs::Translate::with_table_range, history::specs::Translate::with_page, history::specs::Translate::frame_found, history::specs::Translate::rights_found, history::specs::Units::no_range))]
pub fn install(u: Unit, s: u32, p: Page, ranges: &[u32], f: Finding) -> Unit
    requires ranges_len { length ranges.now ≡ range_words_in_space }
    requires next_le_largest_place { u.next ≤ largest_place }
    ensures { result ≡ installed u s p.0 ranges.now f }
{
    let entry = PageEntry::new(s, p, f.frame(p), f.rights());
    match f {
        Finding::ByRange { place, .. } => with_last(with_page(u, entry), place),
        // In sound tables a range covers each page whose word has the bit.
        Finding::ByWord(w) if range_bit(w) => {
            let range = table_range(s, ranges, p).unwrap_or(RangeEntry::EMPTY);
            with_range(with_page(u, entry), range)
        }
        Finding::ByWord(_) => with_page(u, entry),
        Finding::ByPage(_) | Finding::Nowhere => u,
    }
}
