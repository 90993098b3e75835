// Standard output by way of a buffer, whose first `held` bytes are lines not yet written.
ghost use Rattle.std.specs.Prelude.{cond, ◌≡◌, ◌≤◌, length};

use std::io::Write;

// Writes the bytes. Where a write fails, the rest of them is lost.
fn put<W: Write>(stdout: &mut W, bytes: &[u8]) {
    let _ = stdout.write_all(bytes);
}

pub fn header<W: Write>(stdout: &mut W) {
    let text = records::heading();
    put(stdout, &text);
}

// Writes the held lines.
pub fn send<W: Write>(stdout: &mut W, lines: &[u8], held: usize)
    requires { held ≤ length lines.now }
{
    put(stdout, &lines[..held]);
}

// Writes the held lines unless they are kept; answers how many bytes are held then.
pub fn settle<W: Write>(stdout: &mut W, kept: bool, lines: &[u8], held: usize) -> usize
    requires { held ≤ length lines.now }
    ensures { result ≡ cond kept held 0 }
{
    if kept {
        return held;
    }
    send(stdout, lines, held);
    0
}
