// The call coverage: how much of a space's mapped pages lies in ranges. It judges what it is lent and writes nothing.
#![tactic(auto)]

ghost use Rattle.std.specs.Prelude.{◌≡◌, true, ◌&&◌, ◌<◌, length};
ghost use Rattle.runs.specs.PageWords.{pages_in_space, mapped, range_bit};
ghost use Rattle.words.specs.Counts.{count};
ghost use Rattle.words.specs.Searches.{any_from};
ghost use Rattle.words.specs.Rows.{number_of};
ghost use Rattle.layout.specs.declared.TableCall.TheVariants.{Coverage};
ghost use Rattle.words.specs.Answers.{judged, outcome};
ghost use Rattle.layout.specs.Lent.{read};
ghost use Rattle.layout.specs.Calls.{row, Called, nearest_whole, coverage_figure};
ghost use Rattle.tablecheck.specs.Inner.{page_mapped};
ghost use Rattle.coverage.specs.Inner.{page_in_range};

use layout::Lent;
use ranges::page_words::{mapped, range_bit};
use refusals::judge_shared;
use runs::{PAGE_WORDS, PAGES};
use tablecheck::any_mapped;
use words::answers::{Answer, Refused, Values};

// The figure where every mapped page lies in a range.
const FULL_COVERAGE: u32 = 10000;

// The first refusal that applies, if one does.
fn judge_coverage(lent: Lent, space: u32) -> Result<(), Refused>
    ensures { judged result ≡ number_of (row (read lent.entry) (Coverage space)) }
{
    judge_shared(lent, space, 0, PAGES, 0)?;
    let a = PAGE_WORDS * (space as usize);
    let e = a + PAGE_WORDS;
    if !any_mapped(&lent.pages[a..e], 0, PAGES) {
        return Err(Refused::NotMapped);
    }
    Ok(())
}

// Whether it is the word of a page in a range.
fn in_range(w: u32) -> bool
    ensures { result ≡ (mapped w && range_bit w) }
{
    mapped(w) && range_bit(w)
}

// Pages of a space: the mapped ones, and those of them that lie in ranges.
#[derive(Clone, Copy)]
struct Counted {
    mapped: u32,
    within: u32,
}

// Stays: a space's words are a part of the lent buffer, with their length as a clause, as in ranges.
// Counts both in one pass. The caller lends the space's 1,024 page words.
fn count_pages(part: &[u32]) -> Counted
    requires { length part.now ≡ pages_in_space }
    ensures mapped_value { result.mapped ≡ count pages_in_space (page_mapped part.now) }
    ensures within_value { result.within ≡ count pages_in_space (page_in_range part.now) }
{
    let mut n: u32 = 0;
    let mut m: u32 = 0;
    for w in part {
        n += u32::from(mapped(*w));
        m += u32::from(in_range(*w));
    }
    Counted {
        mapped: n,
        within: m,
    }
}

// The whole number nearest to a / m, an exact half to the even one. The remainder is compared with what is lacking to the next multiple, since twice the remainder could overflow.
fn nearest_whole(a: u32, m: u32) -> u32
    requires { 0 < m }
    ensures { result ≡ nearest_whole a m }
{
    let q = a / m;
    let past = a % m;
    let lacking = m - past;
    if past < lacking {
        return q;
    }
    if lacking < past {
        return q + 1;
    }
    q + q % 2
}

// The pages in ranges in parts of 10,000 of the mapped pages, to the nearest whole figure, an exact half to the even one.
fn figure(part: &[u32]) -> u32
    requires part_len { length part.now ≡ pages_in_space }
    requires part_value { any_from pages_in_space 0 (page_mapped part.now) ≡ true }
    ensures { result ≡ coverage_figure (count pages_in_space (page_in_range part.now)) (count pages_in_space (page_mapped part.now)) }
{
    let pages = count_pages(part);
    nearest_whole(FULL_COVERAGE * pages.within, pages.mapped)
}

// Of a space's mapped pages, how many in 10,000 lie in ranges, to the nearest whole figure, an exact half to the even one. Refused: 1, 2, 5, 10, 12.
pub fn coverage(lent: Lent, space: u32) -> Answer
    ensures { Called (Coverage space) (read lent.entry) (outcome result) (read lent.entry) }
{
    judge_coverage(lent, space)?;
    let a = PAGE_WORDS * (space as usize);
    let e = a + PAGE_WORDS;
    Ok(Values::from(figure(&lent.pages[a..e])))
}
