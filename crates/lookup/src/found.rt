// Who holds a page that is asked for.
ghost use Rattle.std.specs.Prelude.{◌≡◌, ◌≤◌};
ghost use Rattle.history.specs.Translate.{finding, allows, is_access};

use crate::entries::covering_place;
use history::{Finding, PAGE_PLACES, Unit};
use ranges::page_words::mapped;
use runs::Page;

// The first that holds page p of space s, its page word being w. Stays: space and page come apart, here and in `install`, as the calls have them; a struct of both would be made at each call and taken apart in each test.
#[tactic(auto, unfolding(history::specs::Translate::finding, history::specs::Translate::in_ranges, history::specs::Translate::in_word, history::specs::Units::no_page, history::specs::Units::no_range))]
pub fn find(u: Unit, s: u32, p: Page, w: u32) -> Finding
    ensures { result ≡ finding u s p.0 w }
{
    let e = u.pages[(p.0 % PAGE_PLACES) as usize];
    if e.holds(s, p) {
        return Finding::ByPage(e);
    }
    if let Some(place) = covering_place(u, s, p) {
        return Finding::ByRange {
            place: place as u32,
            entry: u.ranges[place],
        };
    }
    if mapped(w) {
        return Finding::ByWord(w);
    }
    Finding::Nowhere
}

// Whether the rights contain access x, of 1, 2 or 4. Stays: a number, as the C interface takes it; `is_access` says which are one.
#[tactic(auto, unfolding(history::specs::Translate::allows))]
pub fn allows(rights: u32, x: u32) -> bool
    requires { 1 ≤ x }
    ensures { result ≡ allows rights x }
{
    rights / x % 2 == 1
}

// Whether x is one access.
#[tactic(auto, unfolding(history::specs::Translate::is_access))]
pub fn is_access(x: u32) -> bool
    ensures { result ≡ is_access x }
{
    matches!(x, 1 | 2 | 4)
}
