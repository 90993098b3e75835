// What page entries and range entries have in common.
ghost use Rattle.std.specs.Prelude.{◌≡◌, Bool, ℕ};
ghost use Rattle.history.specs.declared.Removal.{Removal};

use history::Removal;

// An entry of a unit.
pub trait Entry: Copy {
    ghost EMPTY: { Self };

    ghost formed: { ℕ → Self → Bool };

    ghost named: { Removal → Self → Bool };

    // Invalid entries are zero.
    const EMPTY: Self;

    // Whether the entry may stand at the place.
    fn is_formed(self, place: usize) -> bool
        ensures { result ≡ formed place self };

    // Whether the record drops the entry.
    fn is_named(self, d: Removal) -> bool
        ensures { result ≡ named d self };
}
