// Reads records of calls from standard input, makes each call on one pool and two units, and writes a line for each.
#![tactic(auto)]

mod input;
mod output;

ghost use Rattle.std.specs.Prelude.{cond, ◌≡◌, ◌-◌, ◌≤◌, ◌<◌, length, take};
ghost use Rattle.layout.specs.Tables.{tables};
ghost use Rattle.records.specs.Input.{waiting};
ghost use Rattle.records.specs.Lines.{longest_line};
ghost use Rattle.trace.specs.Listing.{last};
ghost use Rattle.trace.specs.Inner.{Lies, Ready};
ghost use Rattle.coretrace.specs.Runs.{keeps, Ran, RanWhole};

use crate::input::BUFFER;
use records::{LONGEST_LINE, Window};
use std::io::{Read, Write};
use trace::State;

// Stays: an array, and in `State` how many of its bytes are held, since there is no heap.
// The bytes of the buffer that lines are held in.
const LINES: usize = 65536;

// The last number of 64 bits, which no run comes to.
const LAST: u64 = u64::MAX;

// Whether the held lines are kept: a whole record waits, and its line has room.
fn keeps(s: State, buffer: &[u8], lines: &[u8]) -> bool
    requires { Lies s buffer.now lines.now }
    ensures { result ≡ keeps s buffer.now lines.now }
{
    records::ready(buffer, s.window) && LONGEST_LINE <= lines.len() - s.held
}

// Gets the bytes of the next record, behind those that wait. Where none is ready, `fill` reads and may wait: the lines go out before.
fn ahead<R: Read, W: Write>(
    s: State,
    stdin: &mut R,
    stdout: &mut W,
    buffer: &mut [u8; BUFFER],
    lines: &[u8; LINES],
) -> State
    requires lies { Lies s buffer.old lines.now }
    requires number_lt_last { s.number < last }
    ensures ready { Ready result buffer.new lines.now }
    ensures number_value { result.number ≡ s.number }
    ensures held_value { result.held ≡ cond (keeps s buffer.old lines.now) s.held 0 }
    ensures buffer_after { take (s.window.to - s.window.from) (waiting result.window buffer.new) ≡ waiting s.window buffer.old }
{
    let held = output::settle(stdout, keeps(s, buffer, lines), lines, s.held);
    let window = input::fill(stdin, buffer, s.window);
    State { window, held, ..s }
}

// Answers the records; returns how many first bytes of `lines` are still to be written.
fn run<R: Read, W: Write>(
    stdin: &mut R,
    stdout: &mut W,
    control: &mut [u32],
    frames: &mut [u32],
    pages: &mut [u32],
    ranges: &mut [u32],
    buffer: &mut [u8; BUFFER],
    lines: &mut [u8; LINES],
) -> usize
    ensures upper_bound { result ≤ length lines.old }
    ensures ran { Ran (tables control.old frames.old pages.old ranges.old) lines.new result }
{
    let mut units = recordcalls::fresh_units();
    let mut s = State {
        number: 1,
        window: Window { from: 0, to: 0 },
        held: 0,
        goes: true,
    };
    // Stays: a turn counts the number itself (`Turned`), so a `for` over the numbers would count them twice.
    while s.number < LAST {
        s = ahead(s, stdin, stdout, buffer, lines);
        s = trace::step(s, &mut units, control, frames, pages, ranges, buffer, lines);
        if !s.goes {
            break;
        }
    }
    s.held
}

// Writes the listing of the input; returns how many first bytes of `lines` are still to be written.
fn list<R: Read, W: Write>(
    stdin: &mut R,
    stdout: &mut W,
    buffer: &mut [u8; BUFFER],
    lines: &mut [u8; LINES],
) -> usize
    ensures upper_bound { result ≤ length lines.old }
    ensures ran_whole { RanWhole lines.new result }
{
    output::header(stdout);
    let mut control = [0u32; layout::CONTROL_WORDS];
    let mut frames = [0u32; layout::FRAME_BUFFER_WORDS];
    let mut pages = [0u32; layout::PAGE_BUFFER_WORDS];
    let mut ranges = [0u32; layout::RANGE_BUFFER_WORDS];
    run(
        stdin,
        stdout,
        &mut control,
        &mut frames,
        &mut pages,
        &mut ranges,
        buffer,
        lines,
    )
}

fn main(rt: HostRuntime) {
    let mut stdin = rt.stdin();
    let mut stdout = rt.stdout();
    let mut buffer = [0u8; BUFFER];
    let mut lines = [0u8; LINES];
    let held = list(&mut stdin, &mut stdout, &mut buffer, &mut lines);
    output::send(&mut stdout, &lines, held);
}
