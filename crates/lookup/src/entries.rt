// The range entries of a unit that hold a page.
ghost use Rattle.std.specs.Prelude.{◌≡◌, ◌<◌, get_or, MatchOption, position};
ghost use Rattle.std.proofs.Math.Option.{none, some};
ghost use Rattle.history.specs.Translate.{covers, covering_place};
ghost use Rattle.history.specs.Units.{no_range, range_entries};

use history::{RangeEntry, Unit};
use runs::Page;

// The place of the first range entry that covers the page.
fn first_covering(ranges: &[RangeEntry], s: u32, p: Page) -> Option<usize>
    ensures { result ≡ position (λ e. covers e s p.0) ranges.now }
{
    ranges.iter().position(|e| e.covers(s, p))
}

// Whether the range entry at place k covers the page.
fn place_covers(ranges: &[RangeEntry], k: usize, s: u32, p: Page) -> bool
    ensures { result ≡ covers (get_or ranges.now k no_range) s p.0 }
{
    match ranges.get(k) {
        Some(e) => e.covers(s, p),
        None => false,
    }
}

// The place of the range entry that decides: last used is tried first, then ascending.
pub fn covering_place(u: Unit, s: u32, p: Page) -> Option<usize>
    ensures { MatchOption result (covering_place u s p.0 ≡ none) (λ k. (covering_place u s p.0 ≡ some k) × (k < range_entries)) }
{
    let last = u.last as usize;
    if place_covers(&u.ranges, last, s, p) {
        return Some(last);
    }
    first_covering(&u.ranges, s, p)
}
