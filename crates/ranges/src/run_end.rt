// The end of a run, as the walks over page words come to it.
ghost use Rattle.std.specs.Prelude.{◌≤◌, ◌+◌, length};
ghost use Rattle.runs.specs.PageWords.{pages_in_space};
ghost use Rattle.runs.specs.Runs.{range_words_in_space};
ghost use Rattle.runs.specs.Walk.{ended};

// A run of pages up to `limit`, left out, where it ends unless it goes on there: how many pages it has, its last word, and the place of its entry among the range words.
#[derive(Clone, Copy)]
pub struct RunEnd {
    pub goes_on: bool,
    pub at: usize,
    pub limit: u32,
    pub pages: u32,
    pub word: u32,
    ghost inside: { pages ≤ limit },
    ghost in_space: { limit ≤ pages_in_space },
    ghost room: { at + length (ended goes_on limit pages word) ≤ range_words_in_space },
}
