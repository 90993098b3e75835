// Range entries: which are well formed, at whatever place, and which records drop one.
ghost use Rattle.history.specs.Units.{no_range, range_entry_ok};
ghost use Rattle.history.specs.CatchUp.{overlaps};

use crate::entry::Entry;
use history::{RangeEntry, Removal};
use ranges::page_words::{allowed_rights, frames_fit};
use runs::{LAST_SPACE, PAGES};

#[tactic(auto, unfolding(history::specs::Units::no_range, history::specs::Units::range_entry_ok, history::specs::Units::frame_by, runs::specs::Runs::frame_by, history::specs::CatchUp::overlaps))]
impl Entry for RangeEntry {
    ghost EMPTY = { no_range };

    ghost formed = { range_entry_ok };

    ghost named = { overlaps };

    const EMPTY: RangeEntry = RangeEntry::EMPTY;

    fn is_formed(self, _place: usize) -> bool {
        if self.valid != 1 {
            return self == RangeEntry::EMPTY;
        }
        self.space <= LAST_SPACE
            && self.base < self.limit
            && self.limit <= PAGES
            && allowed_rights(self.rights)
            && frames_fit(self.base, self.limit, self.offset)
    }

    fn is_named(self, d: Removal) -> bool {
        self.valid == 1
            && d.space == self.space
            && u64::from(self.base) < d.end()
            && d.first < self.limit
    }
}
