// Writing a line: five decimal numbers.
ghost use Rattle.std.specs.Prelude.{◌≡◌, ◌+◌, ◌≤◌, length};
ghost use Rattle.std.proofs.Math.Seq.{paste};
ghost use Rattle.records.specs.Lines.{longest_line, written, cell, line, header};

use words::Outcome;

// The header line.
pub fn heading() -> [u8; 32]
    ensures { result ≡ header }
{
    *b"record kind answer first second\n"
}

// Puts a number and the byte after it at place `at` of `out`, and answers the place after them.
fn put(n: u64, after: u8, out: &mut [u8], at: usize) -> usize
    requires { at + 21 ≤ length out.old }
    ensures out_after { out.new ≡ written at (cell n after) out.old }
    ensures value { result ≡ at + length (cell n after) }
    ensures upper_bound { result ≤ at + 21 }
{
    let mut text = [0u8; 20];
    let k = io::decimal(n, &mut text);
    let end = at + k;
    out[at..end].copy_from_slice(&text[..k]);
    out[end] = after;
    end + 1
}

// Puts a record's line at place `at` of `out`, and answers the place after it.
pub fn line(number: u64, kind: u32, o: Outcome, out: &mut [u8], at: usize) -> usize
    requires { at + longest_line ≤ length out.old }
    ensures out_after { out.new ≡ written at (line number kind o) out.old }
    ensures value { result ≡ at + length (line number kind o) }
    ensures upper_bound { result ≤ at + longest_line }
{
    let a = put(number, b' ', out, at);
    let b = put(kind as u64, b' ', out, a);
    let c = put(o.number as u64, b' ', out, b);
    let d = put(o.first as u64, b' ', out, c);
    put(o.second as u64, b'\n', out, d)
}
