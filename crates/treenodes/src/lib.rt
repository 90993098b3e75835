// Nodes of a range tree in a lent buffer: reading them, rows of ranges and children, and writing them.
#![tactic(auto)]

pub mod lines;
pub mod reading;
pub mod writing;
