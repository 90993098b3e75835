// Free blocks made from the owners alone, so that buddies merge, and the check that the words of a buffer are these.
#![tactic(auto)]

// Stays: a slice with a clause on its length in place of `&[u32; 4096]`. The layers above hold slices of proved length, and to make an array of one would need a branch for a length that it cannot have: no plainer.
// Stays: pool size and frames are numbers with their bounds as clauses, as in splitting; that a frame is where a block ends (`Edge`) is shown by the words and the pool size, so no type of frames can say it.
mod checking;
mod freeing;
mod settling;

pub use crate::checking::{judge, lawful};
pub use crate::freeing::release;
pub use crate::settling::fresh;
