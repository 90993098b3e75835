// Page entries: where one may stand, and which records drop it.
ghost use Rattle.history.specs.Units.{no_page, page_entry_ok};
ghost use Rattle.history.specs.CatchUp.{names_entry};

use crate::entry::Entry;
use blocks::LARGEST_POOL;
use history::{PAGE_PLACES, PageEntry, Removal};
use ranges::page_words::allowed_rights;
use runs::{LAST_PAGE, LAST_SPACE};

#[tactic(auto, unfolding(history::specs::Units::no_page, history::specs::Units::page_entry_ok, history::specs::CatchUp::names, history::specs::CatchUp::names_entry, blocks::specs::Owners::in_span))]
impl Entry for PageEntry {
    ghost EMPTY = { no_page };

    ghost formed = { page_entry_ok };

    ghost named = { names_entry };

    const EMPTY: PageEntry = PageEntry::EMPTY;

    fn is_formed(self, place: usize) -> bool {
        if self.valid != 1 {
            return self == PageEntry::EMPTY;
        }
        self.space <= LAST_SPACE
            && self.page <= LAST_PAGE
            && (self.page % PAGE_PLACES) as usize == place
            && self.frame < LARGEST_POOL
            && allowed_rights(self.rights)
    }

    fn is_named(self, d: Removal) -> bool {
        self.valid == 1
            && d.space == self.space
            && d.first <= self.page
            && u64::from(self.page) < d.end()
    }
}
