// The bytes that are read and not yet taken: the record that they begin with.
ghost use Rattle.std.specs.Prelude.{◌≡◌, ◌-◌, ◌≤◌, ltb, length, take, drop, MatchOption};
ghost use Rattle.records.specs.Input.{waiting, standing, next_of, behind};

use crate::records::{read_record, word_at};
use crate::{Next, Window};

impl Window {
    // The bytes that wait.
    fn of(self, buffer: &[u8]) -> &[u8]
        requires from_le_to { self.from ≤ self.to }
        requires to_in_bounds { self.to ≤ length buffer.now }
        ensures { result.now ≡ waiting self buffer.now }
    {
        &buffer[self.from..self.to]
    }
}

// The length of the record that the bytes begin with, its two-byte head too; none where they do not hold it whole.
pub fn standing(bytes: &[u8]) -> Option<usize>
    ensures value { MatchOption result (standing bytes.now ≡ 0) (λ n. (n ≡ standing bytes.now) × (2 ≤ n)) }
    ensures upper_bound { standing bytes.now ≤ length bytes.now }
    ensures bytes_len_bound { standing bytes.now ≡ 0 → length bytes.now ≤ 65536 }
{
    if bytes.len() < 2 {
        return None;
    }
    let n = usize::from(word_at(bytes, 0)) + 2;
    if bytes.len() < n {
        return None;
    }
    Some(n)
}

// Whether a whole record waits.
pub fn ready(buffer: &[u8], w: Window) -> bool
    requires from_le_to { w.from ≤ w.to }
    requires to_in_bounds { w.to ≤ length buffer.now }
    ensures { result ≡ ltb 0 (standing (waiting w buffer.now)) }
{
    standing(w.of(buffer)).is_some()
}

// What the bytes give.
fn next_of(bytes: &[u8]) -> Next
    ensures { result ≡ next_of bytes.now }
{
    if bytes.is_empty() {
        return Next::End;
    }
    match standing(bytes) {
        Some(n) => Next::Whole(read_record(&bytes[2..n])),
        None => Next::Cut,
    }
}

// What the bytes that wait give.
pub fn fetch(buffer: &[u8], w: Window) -> Next
    requires from_le_to { w.from ≤ w.to }
    requires to_in_bounds { w.to ≤ length buffer.now }
    ensures { result ≡ next_of (waiting w buffer.now) }
{
    next_of(w.of(buffer))
}

// What waits behind the record that `fetch` gives.
pub fn rest(buffer: &[u8], w: Window) -> Window
    requires from_le_to { w.from ≤ w.to }
    requires to_in_bounds { w.to ≤ length buffer.now }
    ensures value { result ≡ behind w buffer.now }
    ensures from_le_to_2 { result.from ≤ result.to }
    ensures to_in_bounds_2 { result.to ≤ length buffer.now }
{
    Window {
        from: w.from + standing(w.of(buffer)).unwrap_or(0),
        to: w.to,
    }
}
