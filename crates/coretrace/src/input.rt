// Standard input by way of a buffer: reading on until a whole record waits.
ghost use Rattle.std.specs.Prelude.{◌≡◌, ◌+◌, ◌-◌, ◌≤◌, ◌<◌, length, take, drop};
ghost use Rattle.records.specs.Input.{waiting, standing};

use records::Window;
use std::io::Read;

// The bytes of the buffer that records are read into: the longest record has 65,537.
pub const BUFFER: usize = 131072;

// One read into the room behind the first `to` bytes; answers how many it gave, none where it fails.
fn read_to<R: Read>(stdin: &mut R, buffer: &mut [u8], to: usize) -> usize
    requires { to < length buffer.old }
    ensures result_in_bounds { to + result ≤ length buffer.old }
    ensures buffer_unchanged { take to buffer.new ≡ take to buffer.old }
{
    stdin.read(&mut buffer[to..]).unwrap_or(0)
}

// Reads behind the first n bytes until a whole record stands at the front or a read gives nothing; answers how many bytes there are.
// Stays: how many reads there are shows only as they are made, so a `for` has no range to go over.
fn read_on<R: Read>(stdin: &mut R, buffer: &mut [u8; BUFFER], n: usize) -> usize
    requires n_in_bounds { n ≤ length buffer.old }
    ensures lower_bound { n ≤ result }
    ensures upper_bound { result ≤ length buffer.old }
    ensures buffer_unchanged { take n buffer.new ≡ take n buffer.old }
{
    let mut to = n;
    while records::standing(&buffer[..to]).is_none() {
        let got = read_to(stdin, buffer, to);
        if got == 0 {
            break;
        }
        to += got;
    }
    to
}

// Where no whole record waits, moves what waits to the front and reads on.
pub fn fill<R: Read>(stdin: &mut R, buffer: &mut [u8; BUFFER], w: Window) -> Window
    requires from_le_to { w.from ≤ w.to }
    requires to_in_bounds { w.to ≤ length buffer.old }
    ensures from_le_to_2 { result.from ≤ result.to }
    ensures to_in_bounds_2 { result.to ≤ length buffer.old }
    ensures buffer_after { take (w.to - w.from) (waiting result buffer.new) ≡ waiting w buffer.old }
    ensures value { 0 < standing (waiting w buffer.old) → (result ≡ w) × (buffer.new ≡ buffer.old) }
{
    if records::ready(buffer, w) {
        return w;
    }
    buffer.copy_within(w.from..w.to, 0);
    let to = read_on(stdin, buffer, w.to - w.from);
    Window { from: 0, to }
}
