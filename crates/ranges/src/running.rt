// The running length, carried from page to page by the walk that checks a space: at each page the number of pages of its longest run up to there, 0 where it is in none.
ghost use Rattle.std.specs.Prelude.{◌≡◌, ◌+◌, ◌<◌, ◌≤◌, length, slice_index};
ghost use Rattle.runs.specs.PageWords.{pages_in_space};
ghost use Rattle.runs.specs.Running.{RunningLength, Carries, RunningAlong};
ghost use Rattle.runs.specs.Inner.{Along};

use crate::walk::{Stretch, goes_on};
use runs::Page;

// What the walk carries: the running length at the page that it passed last, and that page's word.
#[derive(Clone, Copy)]
pub struct Carried {
    pub length: u32,
    pub word: u32,
}

// What is carried before page 0.
pub fn at_start() -> Carried
    ensures { (result.length ≡ 0) × (result.word ≡ 0) }
{
    Carried { length: 0, word: 0 }
}

// The running length and the word of page b, from those of the page before.
pub fn pass_page(part: &[u32], b: Page, before: Carried) -> Carried
    requires part_len { length part.now ≡ pages_in_space }
    requires b_lt_pages_in_space { b.0 < pages_in_space }
    requires carries { Carries part.now b.0 before.length before.word }
    ensures running_length { RunningLength part.now b.0 result.length }
    ensures word_value { result.word ≡ slice_index part.now b.0 }
{
    let word = part[b.0 as usize];
    let length = goes_on(before.length, before.word, word);
    Carried { length, word }
}

// What is carried after a stretch, which is passed at once: the running length rises by as many pages as are mapped.
pub fn pass_stretch(part: &[u32], b: Page, before: Carried, along: Stretch) -> Carried
    requires part_len { length part.now ≡ pages_in_space }
    requires b_le_pages_in_space { b.0 ≤ pages_in_space }
    requires carries { Carries part.now b.0 before.length before.word }
    requires along { Along part.now b.0 before.word along.pages along.mapped }
    ensures running_along { RunningAlong part.now b.0 before.length along.pages result.length }
    ensures carries_2 { Carries part.now (b.0 + along.pages) result.length result.word }
{
    Carried {
        length: before.length + along.mapped,
        word: before.word + along.mapped,
    }
}
