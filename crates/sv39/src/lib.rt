// Page words to and from Sv39 leaf entries, for a debugger, which links this crate without the rest. No function here is lent a table, and none that is public asks anything of its caller.
#![tactic(auto)]

mod entries;

ghost use Rattle.std.specs.Prelude.{◌≡◌};
ghost use Rattle.words.specs.Places.{Given};
ghost use Rattle.words.specs.Answers.{outcome};
ghost use Rattle.sv39.specs.Entries.{to_sv39, from_sv39};

use crate::entries::{frame_of, has_entry, has_word, in_range, leaf, rights_of};
use ranges::page_words::{frame_in, page_word, range_bit, rights_in};
use words::answers::{Answer, Refused, Values, outcome};
use words::places::give;

// Stays: each way has tests and parts of its own, so one function for both would take them all as arguments: no plainer.
// The entry of a page word, as first value. Refused: 18.
pub fn to_sv39(word: u32) -> Answer
    ensures { outcome result ≡ to_sv39 word }
{
    if word == 0 {
        return Ok(Values::from(0));
    }
    if !has_entry(word) {
        return Err(Refused::NoCounterpart);
    }
    let entry = leaf(range_bit(word), rights_in(word), frame_in(word));
    Ok(Values::from(entry))
}

// The page word of an entry, as first value. Refused: 18.
pub fn from_sv39(entry: u64) -> Answer
    ensures { outcome result ≡ from_sv39 entry }
{
    if entry == 0 {
        return Ok(Values::from(0));
    }
    if !has_word(entry) {
        return Err(Refused::NoCounterpart);
    }
    let word = page_word(in_range(entry), rights_of(entry), frame_of(entry));
    Ok(Values::from(word))
}

// `to_sv39` for C and Rust: the number is returned, the values go into a lent place. Refused: 1, 18.
#[unsafe(no_mangle)]
pub extern "C" fn yavrestom_to_sv39(word: u32, values: &mut [u32]) -> u32
    ensures { Given (to_sv39 word) values.old result values.new }
{
    let entry = outcome(to_sv39(word));
    give(values, entry)
}

// `from_sv39` for C and Rust, in the same way. Refused: 1, 18.
#[unsafe(no_mangle)]
pub extern "C" fn yavrestom_from_sv39(entry: u64, values: &mut [u32]) -> u32
    ensures { Given (from_sv39 entry) values.old result values.new }
{
    let word = outcome(from_sv39(entry));
    give(values, word)
}
