// What a record does to the tables and two units.
#![tactic(auto)]

mod taking;

pub use crate::taking::{fresh_units, needs_unit, take};
use history::Unit;
use words::Outcome;

// Unit 0 and unit 1.
// Stays: every number but 0 names the second (`unit_at`), so an array is no plainer: `units[usize::from(n != 0)]`.
#[derive(Clone, Copy)]
pub struct TwoUnits {
    pub first: Unit,
    pub second: Unit,
}

// What a line shows after the record's number.
#[derive(Clone, Copy)]
pub struct Shown {
    // Stays: a number, since the kind of a malformed record is shown whatever it is.
    pub kind: u32,
    pub outcome: Outcome,
}
