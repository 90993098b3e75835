// What a record does to the tables and two units.
ghost use Rattle.std.specs.Prelude.{◌≡◌, true, false, ◌&&◌, eqb};
ghost use Rattle.words.specs.Rows.{accepted};
ghost use Rattle.words.specs.Answers.{outcome};
ghost use Rattle.layout.specs.Tables.{tables};
ghost use Rattle.history.specs.Lists.{Does};
ghost use Rattle.recordcalls.specs.Steps.{fresh_units, unit_at, with_unit_at, RecordTaken, needs_unit, TakenBeside};

use crate::{Shown, TwoUnits};
use history::Call;
use records::{Malformed, Meaning, Request};
use words::answers::{Answer, Refused, outcome};

// The kind of a set-up of the pool.
const SET_UP_POOL: u32 = 1;

// Both units fresh.
pub fn fresh_units() -> TwoUnits
    ensures { result ≡ fresh_units }
{
    let fresh = units::fresh().unit;
    TwoUnits {
        first: fresh,
        second: fresh,
    }
}

// Makes a call on unit n; every number but 0 names the second.
fn make_on(
    call: Call,
    n: u32,
    units: &mut TwoUnits,
    control: &mut [u32],
    frames: &mut [u32],
    pages: &mut [u32],
    ranges: &mut [u32],
) -> Answer
    ensures does { Does true (tables control.old frames.old pages.old ranges.old) (unit_at units.old n) (outcome result) call (tables control.new frames.new pages.new ranges.new) (unit_at units.new n) }
    ensures other_stays { units.new ≡ with_unit_at units.old n (unit_at units.new n) }
{
    if n == 0 {
        units::perform_on(call, &mut units.first, control, frames, pages, ranges)
    } else {
        units::perform_on(call, &mut units.second, control, frames, pages, ranges)
    }
}

// Whether a record of this kind, answered so, makes both units fresh.
fn renews(kind: u32, answer: Answer) -> bool
    ensures { result ≡ (eqb kind 1 && accepted (outcome answer)) }
{
    kind == SET_UP_POOL && answer.is_ok()
}

// Whether a record asks for a call that is lent a unit; a malformed one does not.
pub fn needs_unit(meaning: Meaning) -> bool
    ensures { result ≡ needs_unit meaning }
{
    match meaning {
        Ok(request) => matches!(request.call, Call::OnUnit(_)),
        Err(_) => false,
    }
}

// Takes a record: a malformed one answers 16 and changes nothing. One that needs no unit does the same whatever the units are: they stay or become fresh.
pub fn take(
    meaning: Meaning,
    units: &mut TwoUnits,
    control: &mut [u32],
    frames: &mut [u32],
    pages: &mut [u32],
    ranges: &mut [u32],
) -> Shown
    ensures taken { RecordTaken (tables control.old frames.old pages.old ranges.old) units.old meaning result (tables control.new frames.new pages.new ranges.new) units.new }
    ensures beside { needs_unit meaning ≡ false → TakenBeside (tables control.old frames.old pages.old ranges.old) meaning result (tables control.new frames.new pages.new ranges.new) }
{
    match meaning {
        Err(Malformed(kind)) => Shown {
            kind,
            outcome: outcome(Err(Refused::Malformed)),
        },
        Ok(Request { kind, unit, call }) => {
            let answer = make_on(call, unit, units, control, frames, pages, ranges);
            if renews(kind, answer) {
                *units = fresh_units();
            }
            Shown {
                kind,
                outcome: outcome(answer),
            }
        }
    }
}
