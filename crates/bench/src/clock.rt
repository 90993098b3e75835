// The processor time that the program has used, in microseconds, and what calls use of it.
ghost use Rattle.std.specs.Prelude.{◌≡◌};

use std::time::CpuClock;

// The time used so far, or 0 where the system cannot tell.
fn used<R: CpuClock>(rt: &R) -> u64 {
    match rt.process_cpu_time() {
        Ok(time) => u64::try_from(time.as_micros()).unwrap_or(0),
        Err(_) => 0,
    }
}

// The time of a hundred calls, or 0 where not every call did the same. Each is compared with a first one, since the compiler may leave out work whose end nothing reads.
pub fn hundred<R: CpuClock, T: PartialEq + Copy, F: FnMut() -> T>(rt: &R, call: &mut F) -> u64
    requires { F.IsAlwaysCallable call.old }
    ensures { F.IsAlwaysCallable call.new }
{
    let first = call();
    let mut same = true;
    let start = used(rt);
    for _ in 0..100u32 {
        if call() != first {
            same = false;
        }
    }
    let time = used(rt).saturating_sub(start);
    if same { time } else { 0 }
}

// The time of the fastest hundred calls out of `rounds` hundreds.
pub fn fastest<R: CpuClock, T: PartialEq + Copy, F: FnMut() -> T>(
    rt: &R,
    rounds: u32,
    call: &mut F,
) -> u64
    requires { F.IsAlwaysCallable call.old }
{
    let mut best = hundred(rt, call);
    for _ in 1..rounds {
        best = best.min(hundred(rt, call));
    }
    best
}
