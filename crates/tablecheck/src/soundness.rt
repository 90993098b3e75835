// Whether the four lent buffers have their lengths, and are sound.
ghost use Rattle.std.specs.Prelude.{◌≡◌, length};
ghost use Rattle.blocks.specs.FrameWords.{frame_buffer_words};
ghost use Rattle.control.specs.Control.{control_buffer_words};
ghost use Rattle.layout.specs.Lent.{read};
ghost use Rattle.layout.specs.Tables.{page_buffer_words, range_buffer_words, right_lengths};
ghost use Rattle.layout.specs.Sound.{sound};

use crate::walking::walk_spaces;
use layout::{CONTROL_WORDS, FRAME_BUFFER_WORDS, Lent, PAGE_BUFFER_WORDS, RANGE_BUFFER_WORDS};

// Whether each buffer has its length.
pub fn right_lengths(lent: Lent) -> bool
    ensures { result ≡ right_lengths (read lent.entry) }
{
    let Lent {
        control,
        frames,
        pages,
        ranges,
    } = lent;
    control.len() == CONTROL_WORDS
        && frames.len() == FRAME_BUFFER_WORDS
        && pages.len() == PAGE_BUFFER_WORDS
        && ranges.len() == RANGE_BUFFER_WORDS
}

// Stays: the lengths of what is lent are clauses here and in units: `right_lengths` is the test of them, so a type with these lengths could not be given to it.
// Whether the tables keep every layout and rule. One pass over each buffer: where each mapped page's frame names the page, the held frames name
// their pages too as soon as there are as many of the one as of the other.
pub fn tables_sound(lent: Lent) -> bool
    requires control_len { length lent.control.now ≡ control_buffer_words }
    requires frames_len { length lent.frames.now ≡ frame_buffer_words }
    requires pages_len { length lent.pages.now ≡ page_buffer_words }
    requires ranges_len { length lent.ranges.now ≡ range_buffer_words }
    ensures { result ≡ sound (read lent.entry) }
{
    if !control::control_lawful(lent.control) {
        return false;
    }
    let pool = control::pool_size(lent.control);
    let Some(held) = frames::unchecked::judge(lent.frames, pool) else {
        return false;
    };
    let mask = control::open_mask(lent.control);
    let Some(mapped) = walk_spaces(mask, lent.frames, pool, lent.pages, lent.ranges) else {
        return false;
    };
    mapped == held
}
