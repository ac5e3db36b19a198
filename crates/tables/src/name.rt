//! What a name is.
ghost use Rattle.std.specs.Prelude.{◌≡◌};
ghost use Rattle.std.specs.List.{list_all};
ghost use Rattle.tables.specs.Naming.{is_letter, is_name_byte, is_name, named};

use crate::fault::NamesFault;
use lines::field::Field;

/// The longest name.
pub const NAME_LIMIT: usize = 24;

fn is_letter(b: u8) -> bool
    ensures { result ≡ is_letter b }
{
    matches!(b, b'A'..=b'Z' | b'a'..=b'z' | b'_')
}

fn is_name_byte(b: u8) -> bool
    ensures { result ≡ is_name_byte b }
{
    is_letter(b) || matches!(b, b'0'..=b'9' | b'-' | b'.')
}

fn all_name_bytes(bytes: &[u8]) -> bool
    ensures { result ≡ list_all is_name_byte bytes.now }
{
    bytes.iter().all(|b| is_name_byte(*b))
}

/// A letter or underscore, and then at most 23 letters, digits, underscores, hyphens and dots.
pub fn is_name(bytes: &[u8]) -> bool
    ensures { result ≡ is_name bytes.now }
{
    match bytes {
        [] => false,
        [first, ..] => is_letter(*first) && all_name_bytes(bytes) && bytes.len() <= NAME_LIMIT,
    }
}

// Refuses a field that is no name; the fault stands at `place`.
pub(crate) fn check_name(text: &[u8], field: Field, place: usize) -> Result<(), NamesFault>
    ensures { result ≡ named text.now field place }
{
    if is_name(field.bytes(text)) {
        Ok(())
    } else {
        Err(NamesFault::NoName(place))
    }
}
