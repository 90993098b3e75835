// Removal from a range tree in a lent buffer.
#![tactic(auto)]

mod mending;
pub mod root;
mod taking;
