// What a finding gives of the page that was asked for.
ghost use Rattle.std.specs.Prelude.{◌≡◌};
ghost use Rattle.history.specs.Translate.{is_found, frame_found, rights_found, way_found};

use crate::Finding;
use blocks::Frame;
use ranges::page_words::{frame_at, frame_in, rights_in};
use runs::Page;

#[tactic(auto, unfolding(crate::specs::Translate::is_found, crate::specs::Translate::frame_found, crate::specs::Translate::rights_found, crate::specs::Translate::way_found, crate::specs::Units::frame_by))]
impl Finding {
    // Whether the page is held at all.
    pub fn is_found(self) -> bool
        ensures { result ≡ is_found self }
    {
        !matches!(self, Finding::Nowhere)
    }

    // The frame of page p. Stays: here and in the next two, 0 for nobody is what the definitions `frame_found`, `rights_found` and `way_found` say.
    pub fn frame(self, p: Page) -> Frame
        ensures { result.0 ≡ frame_found p.0 self }
    {
        match self {
            Finding::ByPage(e) => Frame(e.frame),
            Finding::ByRange { entry, .. } => frame_at(p, entry.offset),
            Finding::ByWord(w) => frame_in(w),
            Finding::Nowhere => Frame(0),
        }
    }

    // The rights of the page.
    pub fn rights(self) -> u32
        ensures { result ≡ rights_found self }
    {
        match self {
            Finding::ByPage(e) => e.rights,
            Finding::ByRange { entry, .. } => entry.rights,
            Finding::ByWord(w) => rights_in(w),
            Finding::Nowhere => 0,
        }
    }

    // 1 for a page entry, 2 for a range entry, 3 for a page word. Stays: the number is the second value that `translate` answers.
    pub fn way(self) -> u32
        ensures { result ≡ way_found self }
    {
        match self {
            Finding::ByPage(_) => 1,
            Finding::ByRange { .. } => 2,
            Finding::ByWord(_) => 3,
            Finding::Nowhere => 0,
        }
    }
}
