// Giving pages of one space other rights.
ghost use Rattle.std.specs.Prelude.{◌≡◌, true, false, not, ◌+◌, ◌≤◌, eqb, length};
ghost use Rattle.runs.specs.PageWords.{pages_in_space, allowed_rights, page_word, rights_in, frame_in};
ghost use Rattle.runs.specs.Runs.{range_words_in_space};
ghost use Rattle.steps.specs.Inner.{ProtectStep};

use crate::rewriting::{Change, rewrite_span};
use ranges::page_words::{frame_in, page_word, rights_in};
use runs::Page;

// The word with these rights, its range bit clear.
fn with_rights(rights: u32, w: u32) -> u32
    requires { allowed_rights rights ≡ true }
    ensures { result ≡ page_word false rights (frame_in w) }
{
    page_word(false, rights, frame_in(w))
}

// Gives the span these rights; how many of its pages had others.
pub fn protect_space(
    part: &mut [u32],
    ranges: &mut [u32],
    first: Page,
    count: u32,
    rights: u32,
) -> u32
    requires part_len { length part.old ≡ pages_in_space }
    requires ranges_len { length ranges.old ≡ range_words_in_space }
    requires count_bound { first.0 + count ≤ pages_in_space }
    requires rights_value { allowed_rights rights ≡ true }
    ensures { ProtectStep part.old first.0 count rights result part.new ranges.new }
{
    let change = |w: u32| Change {
        word: with_rights(rights, w),
        counts: rights_in(w) != rights,
    };
    rewrite_span(part, ranges, first, count, change)
}
