// Page words, rights and OFFSETs. Only here a frame number comes out of a page word, or out of a page number and an OFFSET; and only here it is said which rights are allowed.
ghost use Rattle.std.specs.Prelude.{◌≡◌, ◌+◌, ◌-◌, ◌*◌, ◌<◌, ◌≤◌, true, nat_lt};
ghost use Rattle.words.specs.Wrapping.{word_bits, wrap_add, wrap_sub};
ghost use Rattle.words.specs.Counts.{one-if};
ghost use Rattle.words.specs.Searches.{all_from};
ghost use Rattle.blocks.specs.FrameWords.{largest_pool};
ghost use Rattle.runs.specs.PageWords.{pages_in_space, mapped_part, range_bit_factor, reserved_rights, allowed_rights, page_word, mapped, range_bit, rights_in, frame_in};
ghost use Rattle.runs.specs.Runs.{frame_by};
ghost use Rattle.runs.specs.Walk.{bit_word};

use blocks::{Frame, LARGEST_POOL};
use runs::Page;

// The word of a mapped page: 65,536 + 32,768 × range bit + 4,096 × rights + frame.
const MAPPED: u32 = 65536;

const RANGE_BIT: u32 = 32768;

const RIGHTS: u32 = 4096;

// Rights are at most 7, and write without read is reserved: write alone, and write and execute.
const LARGEST_RIGHTS: u32 = 7;

const WRITE: u32 = 2;

const WRITE_EXECUTE: u32 = 6;

// Whether rights are reserved.
pub fn reserved_rights(rights: u32) -> bool
    ensures { result ≡ reserved_rights rights }
{
    rights == WRITE || rights == WRITE_EXECUTE
}

// Stays: allowed rights are a number with a clause, here and in steps: page words, entries of units and callers have numbers, and each call judges its own once.
// Whether rights are allowed, in a call, a page word, an entry of a unit or an Sv39 entry.
pub fn allowed_rights(rights: u32) -> bool
    ensures { result ≡ allowed_rights rights }
{
    rights <= LARGEST_RIGHTS && !reserved_rights(rights)
}

// Whether the page is mapped.
pub fn mapped(w: u32) -> bool
    ensures { result ≡ mapped w }
{
    w / MAPPED == 1
}

// The range bit of a mapped page.
pub fn range_bit(w: u32) -> bool
    ensures { result ≡ range_bit w }
{
    w / RANGE_BIT % 2 == 1
}

// The rights of a mapped page.
pub fn rights_in(w: u32) -> u32
    ensures { result ≡ rights_in w }
{
    w / RIGHTS % 8
}

// The frame of a mapped page.
pub fn frame_in(w: u32) -> Frame
    ensures { result.0 ≡ frame_in w }
{
    Frame(w % RIGHTS)
}

// The word of a mapped page with the range bit given, over `low`, its rights and frame.
fn over_low(bit: bool, low: u32) -> u32
    requires { low < range_bit_factor }
    ensures { result ≡ mapped_part + range_bit_factor * one-if bit + low }
{
    MAPPED + RANGE_BIT * u32::from(bit) + low
}

// The word of a mapped page.
pub fn page_word(bit: bool, rights: u32, f: Frame) -> u32
    requires rights_value { allowed_rights rights ≡ true }
    requires f_bound { f.0 ≤ 4095 }
    ensures { result ≡ page_word bit rights f.0 }
{
    over_low(bit, RIGHTS * rights + f.0)
}

// A mapped page's word with the range bit given, its rights and frame as they stand; 0 for any other.
pub fn bit_word(bit: bool, w: u32) -> u32
    ensures { result ≡ bit_word bit w }
{
    if !mapped(w) {
        return 0;
    }
    over_low(bit, w % RANGE_BIT)
}

// The OFFSET that leads from page p to frame f.
pub fn offset(f: Frame, p: Page) -> u32
    ensures { result ≡ wrap_sub word_bits f.0 p.0 }
{
    f.0.wrapping_sub(p.0)
}

// The frame that an OFFSET gives to page p.
pub fn frame_at(p: Page, offset: u32) -> Frame
    ensures { result.0 ≡ wrap_add word_bits p.0 offset }
{
    Frame(p.0.wrapping_add(offset))
}

// Whether each page from BASE up to LIMIT has a frame below 4,096. The frames ascend with the pages, so the first and the last decide.
pub fn frames_fit(base: u32, limit: u32, offset: u32) -> bool
    requires base_lt_limit { base < limit }
    requires limit_le_pages_in_space { limit ≤ pages_in_space }
    ensures { result ≡ all_from (limit - base) base (λ p. nat_lt (frame_by offset p) largest_pool) }
{
    let f = frame_at(Page(base), offset);
    f.0 < LARGEST_POOL && f.0 + (limit - base) <= LARGEST_POOL
}
