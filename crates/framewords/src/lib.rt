// The words of a lent frame buffer: scanned and written by stretches, counted, and searched for owners.
#![tactic(auto)]

pub mod buffer;
pub mod owners;
