// Reading a record: the bytes that follow its two-byte length.
ghost use Rattle.std.specs.Prelude.{◌≡◌};
ghost use Rattle.records.specs.Records.{word_at, argument, meaning};

use crate::kind::Kind;
use crate::{Malformed, Meaning, Request};

// The little-endian word at a place; past the end the bytes are 0.
pub fn word_at(bytes: &[u8], at: u16) -> u16
    ensures { result ≡ word_at bytes.now at }
{
    let at = usize::from(at);
    let low = bytes.get(at).copied().unwrap_or(0);
    let high = bytes.get(at + 1).copied().unwrap_or(0);
    u16::from_le_bytes([low, high])
}

// Argument i, the first being 0.
pub fn argument(bytes: &[u8], i: u8) -> u32
    ensures { result ≡ argument bytes.now i }
{
    u32::from(word_at(bytes, 2 + 2 * u16::from(i)))
}

// What a record asks for.
pub fn read_record(bytes: &[u8]) -> Meaning
    ensures { result ≡ meaning bytes.now }
{
    if bytes.len() < 2 {
        return Err(Malformed(0));
    }
    let number = u32::from(word_at(bytes, 0));
    let kind = Kind::try_from(number)?;
    if bytes.len() != kind.record_length() {
        return Err(Malformed(number));
    }
    let unit = kind.unit(bytes);
    if 1 < unit {
        return Err(Malformed(number));
    }
    Ok(Request {
        kind: number,
        unit,
        call: kind.call(bytes),
    })
}
