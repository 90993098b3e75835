// Whether a lent buffer is a lawful range tree, and the search in one.
#![tactic(auto)]

pub mod checking;
pub mod search;
