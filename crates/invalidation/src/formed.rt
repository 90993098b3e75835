// Whether a unit is well formed: its page entries, its range entries, the last used entry and the place to replace.
ghost use Rattle.std.specs.Prelude.{◌≡◌};
ghost use Rattle.words.specs.Searches.{every};
ghost use Rattle.history.specs.Units.{last_ok, unit_ok};

use crate::entry::Entry;
use history::{LAST_PLACE, NONE_USED, Unit};

// Whether each entry may stand at its place.
fn all_formed<E: Entry>(entries: &[E]) -> bool
    ensures { result ≡ every E.formed 0 entries.now }
{
    entries
        .iter()
        .enumerate()
        .all(|(place, e)| e.is_formed(place))
}

// Whether last used names none or a valid entry.
#[tactic(auto, unfolding(history::specs::Units::last_ok, history::specs::Units::no_range))]
fn last_ok(u: &Unit) -> bool
    ensures { result ≡ last_ok u.now.ranges u.now.last }
{
    u.last == NONE_USED || u.last <= LAST_PLACE && u.ranges[u.last as usize].valid == 1
}

// Whether the unit is well formed.
#[tactic(auto, unfolding(history::specs::Units::unit_ok))]
pub fn unit_ok(u: Unit) -> bool
    ensures { result ≡ unit_ok u }
{
    all_formed(&u.pages) && all_formed(&u.ranges) && last_ok(&u) && u.next <= LAST_PLACE
}
