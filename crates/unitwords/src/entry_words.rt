// An entry of a unit as words.
ghost use Rattle.std.specs.Prelude.{◌≡◌, List, ℕ, ◌+◌, ◌≤◌, length, refl};
ghost use Rattle.unitwords.specs.UnitWords.{words_in_page_entry, words_in_range_entry, page_entry_from, range_entry_from, page_entry_words, range_entry_words};

use history::{PageEntry, RangeEntry};

pub trait EntryWords: Copy {
    ghost WORDS: { ℕ };

    ghost from_words: { List ℕ → ℕ → Self };

    ghost in_words: { Self → List ℕ };

    // How many words it takes.
    const WORDS: usize;

    // The entry that the words from place `at` on are.
    fn read(words: &[u32], at: usize) -> Self
        requires { at + WORDS ≤ length words.now }
        ensures { result ≡ from_words words.now at };

    // Writes the entry over as many words.
    fn write(self, place: &mut [u32])
        requires { length place.old ≡ WORDS }
        ensures { place.new ≡ in_words self };

    ghost as_many: { (e : Self) → length (in_words e) ≡ WORDS };
}

impl EntryWords for PageEntry {
    ghost WORDS = { words_in_page_entry };

    ghost from_words = { page_entry_from };

    ghost in_words = { page_entry_words };

    ghost as_many = { λ e. refl };

    const WORDS: usize = 5;

    fn read(words: &[u32], at: usize) -> PageEntry {
        PageEntry {
            valid: words[at],
            space: words[at + 1],
            page: words[at + 2],
            frame: words[at + 3],
            rights: words[at + 4],
        }
    }

    fn write(self, place: &mut [u32]) {
        place.copy_from_slice(&[self.valid, self.space, self.page, self.frame, self.rights]);
    }
}

impl EntryWords for RangeEntry {
    ghost WORDS = { words_in_range_entry };

    ghost from_words = { range_entry_from };

    ghost in_words = { range_entry_words };

    ghost as_many = { λ e. refl };

    const WORDS: usize = 6;

    fn read(words: &[u32], at: usize) -> RangeEntry {
        RangeEntry {
            valid: words[at],
            space: words[at + 1],
            base: words[at + 2],
            limit: words[at + 3],
            offset: words[at + 4],
            rights: words[at + 5],
        }
    }

    fn write(self, place: &mut [u32]) {
        place.copy_from_slice(&[
            self.valid,
            self.space,
            self.base,
            self.limit,
            self.offset,
            self.rights,
        ]);
    }
}
