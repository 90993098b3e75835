// Spans of pages, and their mapped pages. The caller lends one space's 1,024 page words.
ghost use Rattle.std.specs.Prelude.{◌≡◌, ◌+◌, ◌≤◌, length, take, drop};
ghost use Rattle.std.specs.List.{list_any, list_all};
ghost use Rattle.runs.specs.PageWords.{pages_in_space, mapped};
ghost use Rattle.words.specs.Searches.{all_from, any_from};
ghost use Rattle.layout.specs.Calls.{is_span};
ghost use Rattle.tablecheck.specs.Inner.{page_mapped};

use ranges::page_words::mapped;
use runs::PAGES;

// Whether the span has a page and ends by page 1,023. The sum of first page and page count may not fit a word, so it is not made.
pub fn is_span(first: u32, count: u32) -> bool
    ensures { result ≡ is_span first count }
{
    1 <= count && count <= PAGES && first <= PAGES - count
}

// The words of the span's pages.
fn span(part: &[u32], first: u32, count: u32) -> &[u32]
    requires part_len { length part.now ≡ pages_in_space }
    requires count_bound { first + count ≤ pages_in_space }
    ensures { result.now ≡ take count (drop first part.now) }
{
    &part[first as usize..(first + count) as usize]
}

fn any_in(words: &[u32]) -> bool
    ensures { result ≡ list_any mapped words.now }
{
    words.iter().any(|w| mapped(*w))
}

fn all_in(words: &[u32]) -> bool
    ensures { result ≡ list_all mapped words.now }
{
    words.iter().all(|w| mapped(*w))
}

// Whether a page of the span is mapped.
pub fn any_mapped(part: &[u32], first: u32, count: u32) -> bool
    requires part_len { length part.now ≡ pages_in_space }
    requires count_bound { first + count ≤ pages_in_space }
    ensures { result ≡ any_from count first (page_mapped part.now) }
{
    any_in(span(part, first, count))
}

// Whether every page of the span is mapped.
pub fn all_mapped(part: &[u32], first: u32, count: u32) -> bool
    requires part_len { length part.now ≡ pages_in_space }
    requires count_bound { first + count ≤ pages_in_space }
    ensures { result ≡ all_from count first (page_mapped part.now) }
{
    all_in(span(part, first, count))
}
