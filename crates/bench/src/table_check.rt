// Making tables, and timing the call that checks them and changes nothing: a refused open of space 0.
use crate::buffers::Buffers;
use crate::{cells, clock};
use runs::PAGES;
use std::time::CpuClock;
use words::answers::outcome;

// A pool of 4,096 frames, with space 0 open and every page of the spaces below `mapped` mapped.
fn filled(mapped: u32) -> Buffers {
    let mut buffers = Buffers::of_pool(4096);
    let _ = buffers.open(0);
    for space in 0..mapped {
        let _ = buffers.open(space);
        let _ = buffers.map(space, 0, PAGES, 7);
    }
    buffers
}

// A line, of the tables with every page of the spaces below `mapped` mapped: what the call answers, or where rounds are asked for its time.
fn row<R: Print + CpuClock>(rt: &R, rounds: u32, mapped: u32) {
    let mut buffers = filled(mapped);
    cells::begin_tables(rt, mapped);
    let mut call = || outcome(buffers.open(0));
    if rounds == 0 {
        cells::answer(rt, call());
    } else {
        cells::hundredths(rt, clock::fastest(rt, rounds, &mut call));
    }
    cells::end(rt);
}

// The lines of the table check: nothing mapped, and every page of the four spaces.
pub fn rows<R: Print + CpuClock>(rt: &R, rounds: u32) {
    cells::table_heading(rt);
    row(rt, rounds, 0);
    row(rt, rounds, 4);
}
