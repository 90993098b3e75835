// What the entries of a unit hold, and what a removal record names.
ghost use Rattle.std.specs.Prelude.{◌≡◌, ◌+◌};
ghost use Rattle.history.specs.Translate.{entry_for, holds_page, covers};

use crate::{PageEntry, RangeEntry, Removal};
use blocks::Frame;
use runs::Page;

#[tactic(auto, unfolding(crate::specs::Translate::holds_page, crate::specs::Translate::entry_for))]
impl PageEntry {
    // Invalid entries are zero.
    pub const EMPTY: PageEntry = PageEntry {
        valid: 0,
        space: 0,
        page: 0,
        frame: 0,
        rights: 0,
    };

    // The entry of page p of the space.
    pub fn new(space: u32, p: Page, frame: Frame, rights: u32) -> PageEntry
        ensures { result ≡ entry_for space p.0 frame.0 rights }
    {
        PageEntry {
            valid: 1,
            space,
            page: p.0,
            frame: frame.0,
            rights,
        }
    }

    // Whether the entry is that of page p of the space.
    pub fn holds(self, space: u32, p: Page) -> bool
        ensures { result ≡ holds_page self space p.0 }
    {
        self.valid == 1 && self.space == space && self.page == p.0
    }
}

#[tactic(auto, unfolding(crate::specs::Translate::covers))]
impl RangeEntry {
    pub const EMPTY: RangeEntry = RangeEntry {
        valid: 0,
        space: 0,
        base: 0,
        limit: 0,
        offset: 0,
        rights: 0,
    };

    // Whether the entry covers page p of the space; LIMIT is not covered.
    pub fn covers(self, space: u32, p: Page) -> bool
        ensures { result ≡ covers self space p.0 }
    {
        self.valid == 1 && self.space == space && self.base <= p.0 && p.0 < self.limit
    }
}

impl Removal {
    // The page after its last one; a sum of two words of the log, whatever they are.
    pub fn end(self) -> u64
        ensures { result ≡ self.first + self.count }
    {
        u64::from(self.first) + u64::from(self.count)
    }
}
