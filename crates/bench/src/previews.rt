// Timing a map and its preview on the same tables, of n pages from page 0 of space 0 on.
use crate::buffers::Buffers;
use crate::{cells, clock};
use std::time::CpuClock;
use words::Outcome;
use words::answers::outcome;

// Maps in a copy of the three buffers that map writes, so that each map finds the same. With a control buffer of no words it is refused at once, which shows what the copy costs.
fn map_in_copy(control: &[u32], buffers: &Buffers, n: u32) -> Outcome {
    let mut frames = buffers.frames;
    let mut pages = buffers.pages;
    let mut ranges = buffers.ranges;
    outcome(tables::map(control, &mut frames, &mut pages, &mut ranges, 0, 0, n, 3))
}

// A preview, which needs no copy.
fn preview(b: &Buffers, n: u32) -> Outcome {
    outcome(preview::preview(b.lent(), 0, 0, n, 3))
}

// The times of a hundred of each kind.
#[derive(Clone, Copy)]
struct Times {
    copy: u64,
    map: u64,
    preview: u64,
}

impl Times {
    // The lesser of the two times of each kind.
    fn min(self, other: Times) -> Times {
        Times {
            copy: self.copy.min(other.copy),
            map: self.map.min(other.map),
            preview: self.preview.min(other.preview),
        }
    }
}

// One round.
fn round<R: CpuClock>(rt: &R, buffers: &Buffers, n: u32) -> Times {
    Times {
        copy: clock::hundred(rt, &mut || map_in_copy(&[], buffers, n)),
        map: clock::hundred(rt, &mut || map_in_copy(&buffers.control, buffers, n)),
        preview: clock::hundred(rt, &mut || preview(buffers, n)),
    }
}

// The least times of `rounds` rounds; in each the kinds take turns, so that what slows one for a while slows all.
fn fastest<R: CpuClock>(rt: &R, rounds: u32, buffers: &Buffers, n: u32) -> Times {
    let mut best = round(rt, buffers, n);
    for _ in 1..rounds {
        best = best.min(round(rt, buffers, n));
    }
    best
}

// The cells of a line: the first value that each call answers, or where rounds are asked for its time.
fn line<R: Print + CpuClock>(rt: &R, rounds: u32, buffers: &Buffers, n: u32) {
    if rounds == 0 {
        cells::answer(rt, map_in_copy(&[], buffers, n));
        cells::answer(rt, map_in_copy(&buffers.control, buffers, n));
        cells::answer(rt, preview(buffers, n));
    } else {
        let best = fastest(rt, rounds, buffers, n);
        cells::hundredths(rt, best.copy);
        cells::hundredths(rt, best.map);
        cells::hundredths(rt, best.preview);
    }
    cells::end(rt);
}

// Maps the first `held` pages of space 1 one by one and unmaps every second: the frames of those are then free singly.
fn break_up(buffers: &mut Buffers, held: u32) {
    for page in 0..held {
        let _ = buffers.map(1, page, 1, 3);
    }
    for half in 0..held / 2 {
        let _ = buffers.unmap(1, 2 * half, 1);
    }
}

// A line: n pages, in a pool of `pool` frames of which `held` were broken up.
fn row<R: Print + CpuClock>(rt: &R, rounds: u32, pool: u32, held: u32, n: u32) {
    let mut buffers = Buffers::of_pool(pool);
    let _ = buffers.open(0);
    let _ = buffers.open(1);
    break_up(&mut buffers, held);
    cells::begin_span(rt, pool, held, n);
    line(rt, rounds, &buffers, n);
}

// The lines: one page, eleven, and as many as there are or fit into a space; in pools that are all free, and broken up.
pub fn rows<R: Print + CpuClock>(rt: &R, rounds: u32) {
    cells::preview_heading(rt);
    row(rt, rounds, 32, 0, 1);
    row(rt, rounds, 32, 0, 11);
    row(rt, rounds, 512, 0, 1);
    row(rt, rounds, 512, 0, 512);
    row(rt, rounds, 4096, 0, 1);
    row(rt, rounds, 4096, 0, 11);
    row(rt, rounds, 4096, 0, 1024);
    row(rt, rounds, 1024, 1024, 512);
    row(rt, rounds, 4096, 1024, 1);
    row(rt, rounds, 4096, 1024, 1024);
}
