// Unmapping pages of one space.
ghost use Rattle.std.specs.Prelude.{◌≡◌, ◌+◌, ◌≤◌, length};
ghost use Rattle.runs.specs.PageWords.{pages_in_space};
ghost use Rattle.runs.specs.Runs.{range_words_in_space};
ghost use Rattle.steps.specs.Inner.{UnmapStep};

use crate::rewriting::{Change, rewrite_span};
use ranges::page_words::mapped;
use runs::Page;

// Unmaps the span; how many of its pages were mapped.
pub fn unmap_space(part: &mut [u32], ranges: &mut [u32], first: Page, count: u32) -> u32
    requires part_len { length part.old ≡ pages_in_space }
    requires ranges_len { length ranges.old ≡ range_words_in_space }
    requires count_bound { first.0 + count ≤ pages_in_space }
    ensures { UnmapStep part.old first.0 count result part.new ranges.new }
{
    let change = |w: u32| Change {
        word: 0,
        counts: mapped(w),
    };
    rewrite_span(part, ranges, first, count, change)
}
