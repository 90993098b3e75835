// Records of calls as bytes, the bytes that wait to be taken, and the lines of the listing.
#![tactic(auto)]

mod input;
mod kind;
mod lines;
mod records;

pub use crate::input::{fetch, ready, rest, standing};
pub use crate::lines::{heading, line};
use history::Call;

// The most bytes of a line.
pub const LONGEST_LINE: usize = 105;

// The call that a record asks for, on unit 0 or 1 (0 where the call takes none), and the kind to be shown.
// Stays: `take` answers a request of every number, so a kind that is an enum would ask more of its callers.
#[derive(Clone, Copy)]
pub struct Request {
    pub kind: u32,
    pub unit: u32,
    pub call: Call,
}

// A record that asks for nothing, with the kind to be shown.
#[derive(Clone, Copy, Debug, PartialEq, Eq)]
pub struct Malformed(pub u32);

// What a record asks for.
pub type Meaning = Result<Request, Malformed>;

// Stays: that a window lies in its buffer is a clause. A read moves the bytes while the window is made anew (`fill` of coretrace), so no value holds both.
// The bytes that are read and not yet taken: those of the buffer from `from` up to `to`.
#[derive(Clone, Copy)]
pub struct Window {
    pub from: usize,
    pub to: usize,
}

// What comes next: nothing, a record that the end cuts short, or a whole one.
// Stays: the run tells three cases apart, and an Option of a Result, with a Result in it, names none of them.
#[derive(Clone, Copy)]
pub enum Next {
    End,
    Cut,
    Whole(Meaning),
}
