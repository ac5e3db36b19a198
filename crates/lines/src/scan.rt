//! How far the bytes from a place of a text go, and what ends a record.
ghost use Rattle.std.specs.Prelude.{◌≡◌, ◌-◌, ◌≤◌, ◌==◌, length, drop};
ghost use Rattle.std.specs.List.{position_or_len};
ghost use Rattle.lines.specs.Scanning.{in_record, body, next_line};

use crate::fault::LinesFault;

// The bytes from `place` on; none where the text ends before.
pub(crate) fn rest(text: &[u8], place: usize) -> &[u8]
    ensures { result.now ≡ drop place text.now }
{
    text.get(place..).unwrap_or_default()
}

// How many bytes from `place` on stand before a separator, or before the end where none comes.
pub(crate) fn part_len(text: &[u8], place: usize, separator: u8) -> usize
    ensures value { result ≡ position_or_len (λ b. b == separator) (drop place text.now) }
    ensures within { result ≤ length text.now - place }
{
    rest(text, place)
        .iter()
        .take_while(|b| **b != separator)
        .count()
}

fn in_record(b: u8) -> bool
    ensures { result ≡ in_record b }
{
    matches!(b, b' '..=b'~') && b != b'"'
}

// How many bytes of fields and commas stand from `place` on.
pub(crate) fn body_len(text: &[u8], place: usize) -> usize
    ensures value { result ≡ length (body (drop place text.now)) }
    ensures within { result ≤ length text.now - place }
{
    rest(text, place)
        .iter()
        .take_while(|b| in_record(**b))
        .count()
}

// Where the next record begins behind one whose own bytes end at `end`.
pub(crate) fn next_line(text: &[u8], end: usize) -> Result<usize, LinesFault>
    ensures { result ≡ next_line end (drop end text.now) }
{
    match rest(text, end) {
        [] => Ok(end),
        [b'\r', b'\n', ..] => Ok(end + 2),
        [b'\r' | b'\n', ..] => Err(LinesFault::StrayBreak(end)),
        _ => Err(LinesFault::ForeignByte(end)),
    }
}
