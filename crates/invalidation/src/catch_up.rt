// Catching up: the removal records that a unit has not seen drop its entries.
ghost use Rattle.std.specs.Prelude.{◌≡◌, true, ◌≤◌, length};
ghost use Rattle.words.specs.Tables.{imap};
ghost use Rattle.control.specs.Control.{control_buffer_words, removals, lawful_control};
ghost use Rattle.history.specs.Units.{emptied};
ghost use Rattle.history.specs.CatchUp.{removal_at, keep_last, dropped, caught_up};
ghost use Rattle.invalidation.specs.Entries.{kept};

use crate::entry::Entry;
use control::PLACES;
use history::{NONE_USED, PageEntry, RangeEntry, Removal, Unit};

// Record m.
#[tactic(auto, unfolding(history::specs::CatchUp::removal_at))]
fn removal_at(control: &[u32], m: u32) -> Removal
    requires { length control.now ≡ control_buffer_words }
    ensures { result ≡ removal_at control.now m }
{
    let j = m % PLACES;
    Removal {
        space: control::record_space(control, j),
        first: control::record_first(control, j).0,
        count: control::record_count(control, j),
    }
}

// The entries that the record names become empty.
fn drop_entries<E: Entry>(entries: &mut [E], d: Removal)
    ensures { entries.new ≡ imap (λ k e. kept (E.named d) E.EMPTY e) 0 entries.old }
{
    for e in entries {
        if e.is_named(d) {
            *e = E::EMPTY;
        }
    }
}

// The last used entry, or none where the record drops it.
#[tactic(auto, unfolding(history::specs::CatchUp::keep_last))]
fn keep_last(u: &Unit, d: Removal) -> u32
    ensures { result ≡ keep_last d u.now.ranges u.now.last }
{
    match u.ranges.get(u.last as usize) {
        Some(e) if e.is_named(d) => NONE_USED,
        _ => u.last,
    }
}

// What one record leaves of the unit.
#[tactic(auto, unfolding(history::specs::CatchUp::dropped))]
fn drop_named(u: &mut Unit, d: Removal)
    ensures { u.new ≡ dropped d u.old }
{
    u.last = keep_last(u, d);
    drop_entries(&mut u.pages, d);
    drop_entries(&mut u.ranges, d);
}

// A unit without entries that has seen so many records.
#[tactic(auto, unfolding(history::specs::Units::emptied, history::specs::Units::no_page, history::specs::Units::no_range))]
pub fn emptied(seen: u32) -> Unit
    ensures { result ≡ emptied seen }
{
    Unit {
        pages: [PageEntry::EMPTY; 64],
        ranges: [RangeEntry::EMPTY; 32],
        last: NONE_USED,
        next: 0,
        seen,
    }
}

// The unit after catching up.
pub fn caught_up(u: Unit, control: &[u32]) -> Unit
    requires control_len { length control.now ≡ control_buffer_words }
    requires control_value { lawful_control control.now ≡ true }
    requires seen_bound { u.seen ≤ removals control.now }
    ensures { result ≡ caught_up control.now u }
{
    let c = control::removal_count(control);
    let seen = u.seen;
    if PLACES < c - seen {
        return emptied(c);
    }
    let mut v = u;
    for m in seen..c {
        drop_named(&mut v, removal_at(control, m + 1));
    }
    v.seen = c;
    v
}
