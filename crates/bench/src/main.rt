// Times the frame pool's calls on pools of 512, 1,024, 2,048 and 4,096 frames: all free, every second frame held, and full.
// Then times the check of sound tables, by an open of space 0 that is refused as it is open: with nothing mapped, and with every page of the four spaces mapped.
// Then times a map and its preview on the same tables.
// With no argument it writes what each call answers. With a number it makes that many rounds of a hundred calls of each kind, and writes the microseconds of a call in the fastest round; 0.00 says that not every call did the same, or that the system tells no time.
#![tactic(auto)]

mod buffers;
mod cells;
mod clock;
mod pool_calls;
mod pools;
mod previews;
mod table_check;

use crate::pool_calls::Call;
use crate::pools::Filling;
use std::env::Env;
use std::time::CpuClock;

// The number that the first argument gives, or 0 where there is none, or one of more than eight bytes.
fn rounds_asked<R: Env>(rt: &R) -> u32 {
    let mut text = [0u8; 8];
    match rt.arg(1, &mut text) {
        Ok(n) => cells::number(&text[..n]),
        Err(_) => 0,
    }
}

// A line of the pool's table: each call on one pool.
fn row<R: Print + CpuClock>(rt: &R, rounds: u32, filling: Filling, pool: u32) {
    let words = pools::filled(filling, pool);
    let asked = pools::asked(filling, pool);
    cells::begin_pool(rt, filling, asked);
    pool_calls::cell(rt, rounds, Call::SetUp, words, asked);
    pool_calls::cell(rt, rounds, Call::Check, words, asked);
    pool_calls::cell(rt, rounds, Call::Count, words, asked);
    pool_calls::cell(rt, rounds, Call::Allocate, words, pools::single(asked));
    pool_calls::cell(rt, rounds, Call::Allocate, words, asked);
    let after = pool_calls::after(words, asked);
    let held = pools::held(filling, asked);
    pool_calls::cell(rt, rounds, Call::Free, after, held);
    cells::end(rt);
}

// The lines of the pools of `pool` frames.
fn rows<R: Print + CpuClock>(rt: &R, rounds: u32, pool: u32) {
    row(rt, rounds, Filling::AllFree, pool);
    row(rt, rounds, Filling::EverySecondHeld, pool);
    row(rt, rounds, Filling::Full, pool);
}

// A pool of 0 frames is refused at once: its line shows what the making of a call costs by itself.
fn main(rt: HostRuntime) {
    let rounds = rounds_asked(&rt);
    cells::pool_heading(&rt);
    row(&rt, rounds, Filling::AllFree, 0);
    rows(&rt, rounds, 512);
    rows(&rt, rounds, 1024);
    rows(&rt, rounds, 2048);
    rows(&rt, rounds, 4096);
    table_check::rows(&rt, rounds);
    previews::rows(&rt, rounds);
}
