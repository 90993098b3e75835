// A turn of the run: what comes next is answered, and its line put behind the held ones.
ghost use Rattle.std.specs.Prelude.{◌≡◌, Bool, false, cond, ℕ, ◌+◌, ◌≤◌, length, Option};
ghost use Rattle.words.specs.Rows.{refusal};
ghost use Rattle.layout.specs.Tables.{tables};
ghost use Rattle.records.specs.declared.Next.{Next};
ghost use Rattle.records.specs.Input.{waiting, next_of, behind};
ghost use Rattle.records.specs.Lines.{written, longest_line};
ghost use Rattle.recordcalls.specs.declared.TwoUnits.{TwoUnits};
ghost use Rattle.recordcalls.specs.declared.Shown.{Shown};
ghost use Rattle.recordcalls.specs.Steps.{fresh_units};
ghost use Rattle.trace.specs.Listing.{Came};
ghost use Rattle.trace.specs.Inner.{Turned, TurnedBeside, Lies, Ready, stopped, cut_short, line_of, wants_unit};

use crate::{State, Turn};
use recordcalls::{Shown, TwoUnits, needs_unit, take};
use records::{Next, fetch, line, rest};
use words::answers::{Refused, outcome};

// Whether what comes next asks for a call that is lent a unit.
pub fn wants_unit(next: Next) -> bool
    ensures { result ≡ wants_unit next }
{
    match next {
        Next::End | Next::Cut => false,
        Next::Whole(meaning) => needs_unit(meaning),
    }
}

// What is shown of a record that the end cuts short.
fn cut_short() -> Shown
    ensures { result ≡ cut_short }
{
    Shown {
        kind: 0,
        outcome: outcome(Err(Refused::Malformed)),
    }
}

// The turn that stops.
fn stop(shown: Option<Shown>) -> Turn
    ensures { result ≡ stopped shown }
{
    Turn { shown, goes: false }
}

// Stays: the four buffers one by one here, in `step` and in the program, as `take` is lent them.
// Answers what comes next.
fn answer(
    next: Next,
    units: &mut TwoUnits,
    control: &mut [u32],
    frames: &mut [u32],
    pages: &mut [u32],
    ranges: &mut [u32],
) -> Turn
    ensures came { (number : ℕ) → Came (tables control.old frames.old pages.old ranges.old) units.old number next (line_of number result.shown) (tables control.new frames.new pages.new ranges.new) units.new result.goes }
    ensures beside { wants_unit next ≡ false → (renews : Bool) × ((units.new ≡ cond renews fresh_units units.old) × ((p : TwoUnits) (number : ℕ) → Came (tables control.old frames.old pages.old ranges.old) p number next (line_of number result.shown) (tables control.new frames.new pages.new ranges.new) (cond renews fresh_units p) result.goes)) }
{
    match next {
        Next::End => stop(None),
        Next::Cut => stop(Some(cut_short())),
        Next::Whole(meaning) => Turn {
            shown: Some(take(meaning, units, control, frames, pages, ranges)),
            goes: true,
        },
    }
}

// Puts a line, if there is one, behind the held ones; answers how many bytes are held then.
fn show(number: u64, shown: Option<Shown>, lines: &mut [u8], held: usize) -> usize
    requires { held + longest_line ≤ length lines.old }
    ensures lines_after { lines.new ≡ written held (line_of number shown) lines.old }
    ensures value { result ≡ held + length (line_of number shown) }
    ensures upper_bound { result ≤ length lines.old }
{
    match shown {
        Some(Shown { kind, outcome }) => line(number, kind, outcome, lines, held),
        None => held,
    }
}

// The state after a turn.
fn after(s: State, turn: Turn, buffer: &[u8], lines: &mut [u8]) -> State
    requires { Ready s buffer.now lines.old }
    ensures lines_after { lines.new ≡ written s.held (line_of s.number turn.shown) lines.old }
    ensures value { result ≡ record { number = s.number + 1; window = behind s.window buffer.now; held = s.held + length (line_of s.number turn.shown); goes = turn.goes } }
    ensures lies { Lies result buffer.now lines.old }
{
    State {
        number: s.number + 1,
        window: rest(buffer, s.window),
        held: show(s.number, turn.shown, lines, s.held),
        goes: turn.goes,
    }
}

// A turn. One that needs no unit does the same whatever the units are: they stay or become fresh.
pub fn step(
    s: State,
    units: &mut TwoUnits,
    control: &mut [u32],
    frames: &mut [u32],
    pages: &mut [u32],
    ranges: &mut [u32],
    buffer: &[u8],
    lines: &mut [u8],
) -> State
    requires { Ready s buffer.now lines.old }
    ensures turned { Turned (tables control.old frames.old pages.old ranges.old) units.old s buffer.now lines.old (tables control.new frames.new pages.new ranges.new) units.new result lines.new }
    ensures beside { wants_unit (next_of (waiting s.window buffer.now)) ≡ false → TurnedBeside (tables control.old frames.old pages.old ranges.old) units.old s buffer.now lines.old (tables control.new frames.new pages.new ranges.new) units.new result lines.new }
    ensures lies { Lies result buffer.now lines.old }
{
    let next = fetch(buffer, s.window);
    let turn = answer(next, units, control, frames, pages, ranges);
    after(s, turn, buffer, lines)
}
