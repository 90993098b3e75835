// The bits of an Sv39 leaf entry. Only here a frame number comes out of an entry. Tests are joined by `|` and `&`, which have no branch, so that each proof has one path.
ghost use Rattle.std.specs.Prelude.{◌≡◌, not, ◌<◌, ◌≤◌};
ghost use Rattle.words.specs.Bits.{has_bit};
ghost use Rattle.sv39.specs.Entries.{in_range, leaf, rights_of, frame_of, no_entry, no_word};
ghost use Rattle.sv39.specs.Inner.{wrong_flags};

use blocks::Frame;
use ranges::page_words::{allowed_rights, mapped, rights_in};

// The places of bits; rights stand from READ on. USER and GLOBAL are the standard's U and G; of the two bits left to software one is the range bit, and the other is clear.
const VALID: u32 = 0;

const READ: u32 = 1;

const USER: u32 = 4;

const GLOBAL: u32 = 5;

const ACCESSED: u32 = 6;

const DIRTY: u32 = 7;

const IN_RANGE: u32 = 8;

const OTHER_SOFTWARE: u32 = 9;

const FRAME: u32 = 10;

// What valid, accessed and dirty add to an entry, what the range bit adds, and what rights and frame are multiplied by.
const ALWAYS_SET: u32 = 193;

const RANGE_PART: u32 = 256;

const RIGHTS_FACTOR: u32 = 2;

const FRAME_FACTOR: u32 = 1024;

// What an entry with a frame up to 4,095 and no bit above it is at most.
const LARGEST_ENTRY: u64 = 4194303;

// Whether bit `place` is set.
fn has_bit(entry: u64, place: u32) -> bool
    requires { place < 64 }
    ensures { result ≡ has_bit entry place }
{
    (entry >> place) % 2 == 1
}

// Whether a word other than 0 has an entry.
pub fn has_entry(word: u32) -> bool
    requires { word ≡ 0 → ⊥ }
    ensures { result ≡ not (no_entry word) }
{
    let rights = rights_in(word);
    mapped(word) & (rights != 0) & allowed_rights(rights)
}

// The entry of a mapped page.
pub fn leaf(range: bool, rights: u32, f: Frame) -> u32
    requires rights_bound { rights ≤ 7 }
    requires f_bound { f.0 ≤ 4095 }
    ensures { result ≡ leaf range rights f.0 }
{
    let entry = ALWAYS_SET + RIGHTS_FACTOR * rights + FRAME_FACTOR * f.0;
    if range {
        return RANGE_PART + entry;
    }
    entry
}

// Whether valid, accessed or dirty is clear, or bit 4, 5 or 9 set.
fn wrong_flags(entry: u64) -> bool
    ensures { result ≡ wrong_flags entry }
{
    !has_bit(entry, VALID)
        | !has_bit(entry, ACCESSED)
        | !has_bit(entry, DIRTY)
        | has_bit(entry, USER)
        | has_bit(entry, GLOBAL)
        | has_bit(entry, OTHER_SOFTWARE)
}

// The rights that an entry gives.
pub fn rights_of(entry: u64) -> u32
    ensures { result ≡ rights_of entry }
{
    ((entry >> READ) % 8) as u32
}

// The frame of an entry that is not too large.
pub fn frame_of(entry: u64) -> Frame
    requires { entry ≤ 4194303 }
    ensures { result.0 ≡ frame_of entry }
{
    Frame((entry >> FRAME) as u32)
}

// Whether an entry other than 0 has a word.
pub fn has_word(entry: u64) -> bool
    requires { entry ≡ 0 → ⊥ }
    ensures { result ≡ not (no_word entry) }
{
    let given = rights_of(entry);
    (entry <= LARGEST_ENTRY) & !wrong_flags(entry) & (given != 0) & allowed_rights(given)
}

// The range bit of an entry.
pub fn in_range(entry: u64) -> bool
    ensures { result ≡ has_bit entry in_range }
{
    has_bit(entry, IN_RANGE)
}
