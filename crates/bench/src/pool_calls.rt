// Making and timing one call on the pool.
ghost use Rattle.std.specs.Prelude.{◌≤◌, length};

use crate::{cells, clock};
use blocks::{BUFFER_WORDS, LARGEST_POOL, LAST_FRAME};
use std::time::CpuClock;
use words::Outcome;
use words::answers::{Answer, Refused};

// No frame of any pool.
pub const NO_WISH: u32 = LARGEST_POOL;

#[derive(Clone, Copy, Debug, PartialEq, Eq)]
pub enum Call {
    SetUp,
    Check,
    Count,
    Allocate,
    Free,
}

// A pool of `pool` frames, and the n owners from `owner` on.
#[derive(Clone, Copy)]
pub struct Request {
    pub pool: u32,
    pub owner: u32,
    pub n: u32,
}

// Allocates for the owners of a request, and notes the frames in `out`.
pub fn allocate(frames: &mut [u32], r: Request, out: &mut [u32]) -> Answer {
    match out.get_mut(..r.n as usize) {
        Some(out) => frames::allocate(frames, r.pool, r.owner, NO_WISH, out),
        None => Err(Refused::WrongLength),
    }
}

// Stays: a match over five calls with other arguments each; a table of closures is no plainer.
fn make(call: Call, frames: &mut [u32], r: Request, out: &mut [u32]) -> Answer {
    match call {
        Call::SetUp => frames::set_up(frames, r.pool),
        Call::Check => frames::check(frames, r.pool),
        Call::Count => frames::count(frames, r.pool),
        Call::Allocate => allocate(frames, r, out),
        Call::Free => frames::free(frames, r.pool, r.owner, r.n),
    }
}

// What is seen of a call: its answer, a word of the pool and a place of `out` that it may have written.
#[derive(Clone, Copy, Debug, PartialEq, Eq)]
struct Seen {
    outcome: Outcome,
    word: u32,
    frame: u32,
}

// What is seen of the call on a copy of these words.
fn look(call: Call, words: [u32; BUFFER_WORDS], r: Request, out: &mut [u32]) -> Seen
    requires { 1 ≤ length out.old }
{
    let mut frames = words;
    let outcome = frames::outcome(make(call, &mut frames, r, out));
    // Word n - 1, or where n is 0 the last.
    let word = frames[((r.n % LARGEST_POOL + LAST_FRAME) % LARGEST_POOL) as usize];
    Seen {
        outcome,
        word,
        frame: out[0],
    }
}

// These words once allocate was called on them.
pub fn after(words: [u32; BUFFER_WORDS], r: Request) -> [u32; BUFFER_WORDS] {
    let mut frames = words;
    let mut out = [0u32; BUFFER_WORDS];
    let _ = allocate(&mut frames, r, &mut out);
    frames
}

// A cell: what the call answers, or where rounds are asked for its time.
pub fn cell<R: Print + CpuClock>(
    rt: &R,
    rounds: u32,
    call: Call,
    words: [u32; BUFFER_WORDS],
    r: Request,
) {
    let mut out = [0u32; BUFFER_WORDS];
    let mut seen = || look(call, words, r, &mut out);
    if rounds == 0 {
        cells::answer(rt, seen().outcome);
    } else {
        cells::hundredths(rt, clock::fastest(rt, rounds, &mut seen));
    }
}
