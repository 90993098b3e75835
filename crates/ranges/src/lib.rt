// Ranges of one space: its range bits and range words rebuilt, and the tests of the walk that checks them. Such a walk goes over the page words once and carries the running length.
// The caller lends one space's 1,024 page words and 512 range words.
// Stays: these are slices whose length is a clause, and no arrays: callers have slices, `list_ranges`, `over`, `pass_page` and `pass_stretch` may ask no more of them (docs/), and a conversion inside, tried in `over`, adds a branch that never runs.
#![tactic(auto)]

pub mod lawful;
pub mod page_words;
pub mod renew;
pub mod run_end;
pub mod running;
pub mod walk;
