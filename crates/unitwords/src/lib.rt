// A translation unit as words: read from a lent buffer, and written into one.
#![tactic(auto)]

ghost use Rattle.std.specs.Prelude.{◌≡◌, ◌+◌, ◌*◌, ◌≤◌, length};
ghost use Rattle.words.specs.Tables.{tabulate};
ghost use Rattle.unitwords.specs.UnitWords.{words_in_unit, unit_of, words_behind_entries, joined, words_of};

mod entry_words;

use crate::entry_words::EntryWords;
use history::Unit;

// 64 page entries of five words, 32 range entries of six, and three words.
pub const UNIT_WORDS: usize = 515;

// Where the range entries begin; where last used, the next place and the records seen stand.
const RANGES_FROM: usize = 320;

const LAST_AT: usize = 512;

const NEXT_AT: usize = 513;

const SEEN_AT: usize = 514;

// Reads the entries that stand one after another from place `start` on.
fn read_entries<E: EntryWords>(entries: &mut [E], words: &[u32], start: usize)
    requires { start + E.WORDS * length entries.old ≤ length words.now }
    ensures { entries.new ≡ tabulate (length entries.old) (λ k. E.from_words words.now (start + E.WORDS * k)) }
{
    for (k, e) in entries.iter_mut().enumerate() {
        *e = E::read(words, start + E::WORDS * k);
    }
}

// The unit that the words are.
#[tactic(auto, unfolding(crate::specs::UnitWords::unit_of))]
pub fn read_unit(words: &[u32]) -> Unit
    requires { length words.now ≡ words_in_unit }
    ensures { result ≡ unit_of words.now }
{
    let mut u = invalidation::emptied(0);
    read_entries(&mut u.pages, words, 0);
    read_entries(&mut u.ranges, words, RANGES_FROM);
    u.last = words[LAST_AT];
    u.next = words[NEXT_AT];
    u.seen = words[SEEN_AT];
    u
}

// Writes the entries over the words lent, one after another.
fn write_entries<E: EntryWords>(words: &mut [u32], entries: &[E])
    requires { length words.old ≡ E.WORDS * length entries.now }
    ensures { words.new ≡ joined E.in_words entries.now }
{
    for (k, e) in entries.iter().enumerate() {
        let at = E::WORDS * k;
        e.write(&mut words[at..at + E::WORDS]);
    }
}

// Writes the unit over the words lent, which are that unit then.
pub fn write_unit(words: &mut [u32], u: Unit)
    requires { length words.old ≡ words_in_unit }
    ensures words_after { words.new ≡ words_of u }
    ensures reads_back { unit_of words.new ≡ u }
{
    write_entries(&mut words[0..RANGES_FROM], &u.pages);
    write_entries(&mut words[RANGES_FROM..LAST_AT], &u.ranges);
    words[LAST_AT..UNIT_WORDS].copy_from_slice(&[u.last, u.next, u.seen]);
}
