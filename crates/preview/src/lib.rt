// The call preview: what a map would answer, and the ranges that its space would then have. It judges what it is lent and writes nothing.
#![tactic(auto)]

ghost use Rattle.std.specs.Prelude.{◌≡◌, true, ◌+◌, ◌≤◌, length};
ghost use Rattle.words.specs.Counts.{count};
ghost use Rattle.blocks.specs.FrameWords.{lawful, free_in};
ghost use Rattle.blocks.specs.Choice.{frames_for, block_count, HeldBefore};
ghost use Rattle.runs.specs.PageWords.{pages_in_space, allowed_rights};
ghost use Rattle.runs.specs.Runs.{range_count};
ghost use Rattle.runs.specs.Walk.{range_words};
ghost use Rattle.layout.specs.declared.TableCall.TheVariants.{Preview};
ghost use Rattle.words.specs.Answers.{outcome};
ghost use Rattle.layout.specs.Lent.{read};
ghost use Rattle.layout.specs.Changes.{wish_before, map_words};
ghost use Rattle.steps.specs.Inner.{wish_number};
ghost use Rattle.layout.specs.Calls.{Called};

use layout::Lent;
use refusals::judge_map;
use runs::{PAGE_WORDS, Page};
use steps::{Cost, preview_space};
use words::answers::{Answer, Values};

// Stays: a space's words are a part of the lent buffer, with their length as a clause, as in ranges.
// A copy of a space's page words. It is returned by value, so that the compiler need not clear what the copy overwrites.
fn copied(part: &[u32]) -> [u32; PAGE_WORDS]
    requires { length part.now ≡ pages_in_space }
    ensures { result ≡ part.now }
{
    let mut words = [0u32; PAGE_WORDS];
    words.copy_from_slice(part);
    words
}

// What a map of n pages from the first on costs: it is made in a copy of the space's page words, which is given up afterwards; frame words are read only.
fn try_map(frames: &[u32], part: &[u32], pool: u32, first: Page, n: u32, rights: u32) -> Cost
    requires frames_value { lawful pool frames.now ≡ true }
    requires part_len { length part.now ≡ pages_in_space }
    requires held_before { HeldBefore pool (free_in frames.now) (wish_number (wish_before part.now first.0)) }
    requires n_bound { n ≤ count pool (free_in frames.now) }
    requires n_bound_2 { first.0 + n ≤ pages_in_space }
    requires rights_value { allowed_rights rights ≡ true }
    ensures blocks_value { result.blocks ≡ block_count pool (free_in frames.now) (wish_before part.now first.0) n }
    ensures ranges_value { result.ranges ≡ range_count (range_words (map_words part.now first.0 n rights (frames_for pool (free_in frames.now) (wish_before part.now first.0) n))) }
{
    let mut mapped = copied(part);
    preview_space(frames, &mut mapped, pool, first, n, rights)
}

// What a map of the span would answer; second value: the space's ranges afterwards. Refused: 1, 2, 5, 6, 17, 8, 10, 11, 14.
pub fn preview(lent: Lent, space: u32, first: u32, count: u32, rights: u32) -> Answer
    ensures { Called (Preview space first count rights) (read lent.entry) (outcome result) (read lent.entry) }
{
    judge_map(lent, space, first, count, rights)?;
    let pool = control::pool_size(lent.control);
    let a = PAGE_WORDS * (space as usize);
    let e = a + PAGE_WORDS;
    let cost = try_map(
        lent.frames,
        &lent.pages[a..e],
        pool,
        Page(first),
        count,
        rights,
    );
    Ok(Values {
        first: cost.blocks,
        second: cost.ranges,
    })
}
