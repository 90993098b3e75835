// Choosing blocks and taking none: marks say which are chosen already, and the frame words stay as they are.
ghost use Rattle.std.specs.Prelude.{◌≡◌, true, false, ◌<◌, ◌≤◌, length};
ghost use Rattle.blocks.specs.FrameWords.{largest_pool, lawful};
ghost use Rattle.blocks.specs.Inner.Marks.{mark_words, gone_at, GoneMarked, CutMarked, Previewed, BlockMarked};

use crate::choosing::{Lent, chosen_by, mark_at, order_within};
use blocks::{Block, Bound, Chosen, Cut, Frame};

// Marks that the free block which starts at s in the words lent is left no more.
fn mark_gone(marks: &mut [u32], s: Frame)
    requires marks_len { length marks.old ≡ mark_words }
    requires s_lt_largest_pool { s.0 < largest_pool }
    requires s_value { gone_at marks.old s.0 ≡ false }
    ensures { GoneMarked marks.old s.0 marks.new }
{
    let at = s.0;
    let word = (1 + at / 32) as usize;
    marks[word] += 1u32 << (at % 32);
}

// Marks that the block of the cut is chosen.
fn mark_cut(marks: &mut [u32], cut: Cut)
    requires marks_len { length marks.old ≡ mark_words }
    requires order_le_top { cut.block.order ≤ cut.top }
    requires start_lt_largest_pool { cut.block.start.0 < largest_pool }
    requires start_value { cut.block.order ≡ cut.top → gone_at marks.old cut.block.start.0 ≡ false }
    ensures { CutMarked marks.old cut.block.start.0 cut.block.order cut.top marks.new }
{
    if cut.block.order == cut.top {
        mark_gone(marks, cut.block.start);
        return;
    }
    // What is left above the block is more than the pages that are left: they all come from there.
    marks[0] = 1;
}

// Chooses the block that the map rule gives with this wish while `left` pages are left, and marks it; earlier searches have shown `known`.
pub fn mark_block(
    frames: &[u32],
    pool: u32,
    wish: Frame,
    left: u32,
    known: Bound,
    marks: &mut [u32],
) -> Chosen
    requires frames_value { lawful pool frames.now ≡ true }
    requires le_left { 1 ≤ left }
    requires marks_len { length marks.old ≡ mark_words }
    requires previewed { Previewed pool frames.now marks.old wish.0 left known }
    ensures { BlockMarked pool frames.now marks.old wish.0 left known result marks.new }
{
    if mark_at(marks, 0) != 0 {
        let order = order_within(left);
        return Chosen {
            block: Block { start: wish, order },
            known,
        };
    }
    let lent = Lent {
        frames,
        pool,
        marks,
    };
    // There is one: as many frames are free as pages are left.
    let cut = lent.choose(wish, left, known).unwrap();
    mark_cut(marks, cut);
    chosen_by(cut, wish, left, known)
}
