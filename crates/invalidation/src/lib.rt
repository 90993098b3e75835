// Units: whether one is well formed, and catching up with the removal records. A unit goes in by value and comes back.
#![tactic(auto)]

mod catch_up;
mod entry;
mod formed;
mod page_entries;
mod range_entries;

pub use crate::catch_up::{caught_up, emptied};
pub use crate::formed::unit_ok;
