// Taking frames by the map rule: choosing a block, and cutting it out of its free block or marking it as chosen.
// Stays: pool, owner, count and order are numbers with their bounds as clauses: the layers above have read them from words that they judged, and a type for each would be made in one line and taken apart in the next.
#![tactic(auto)]

mod choosing;
mod marking;
mod taking;

pub use crate::choosing::nothing_known;
pub use crate::marking::mark_block;
pub use crate::taking::{end_of, take_block, take_frames};
