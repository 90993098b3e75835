// Changing the words of a span of one space's pages.
ghost use Rattle.std.specs.Prelude.{◌≡◌, Bool, ℕ, ◌+◌, ◌≤◌, length};
ghost use Rattle.runs.specs.PageWords.{pages_in_space};
ghost use Rattle.runs.specs.Runs.{range_words_in_space};
ghost use Rattle.steps.specs.Inner.{Gives, RewriteStep};

use ranges::renew::renew;
use runs::Page;

// What becomes of a page's word, and whether the page counts.
#[derive(Clone, Copy)]
pub struct Change {
    pub word: u32,
    pub counts: bool,
}

// Gives the words of the span what `change` makes of them, and rebuilds range bits and range words; how many of its pages count.
pub fn rewrite_span<F: Fn(u32) -> Change>(
    part: &mut [u32],
    ranges: &mut [u32],
    first: Page,
    count: u32,
    change: F,
) -> u32
    requires part_len { length part.old ≡ pages_in_space }
    requires ranges_len { length ranges.old ≡ range_words_in_space }
    requires count_bound { first.0 + count ≤ pages_in_space }
    requires callable { F.IsAlwaysCallable change }
    ensures { (word : ℕ → ℕ) (counts : ℕ → Bool) → Gives (F.post change) word counts → RewriteStep word counts part.old first.0 count result part.new ranges.new }
{
    let start = first.0;
    let mut n: u32 = 0;
    for k in 0..count {
        let at = (start + k) as usize;
        let changed = change(part[at]);
        n += u32::from(changed.counts);
        part[at] = changed.word;
    }
    renew(part, ranges);
    n
}
