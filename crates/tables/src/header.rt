//! The header that a table must have.
ghost use Rattle.std.specs.Prelude.{◌≡◌, Ok, Err, map, length, MatchResult};
ghost use Rattle.tables.specs.Heading.{headed_by, opened_by};

use crate::fault::NamesFault;
use lines::field::Field;
use lines::reader::Records;

// Refuses the first field of a header that is not its name.
fn check_header(text: &[u8], header: &[Field], names: &[&[u8]]) -> Result<(), NamesFault>
    requires { length header.now ≡ length names.now }
    ensures { result ≡ headed_by text.now (map (λ n. n.now) names.now) header.now }
{
    for (field, name) in header.iter().zip(names) {
        if !field.holds(text, name) {
            return Err(NamesFault::Header(field.start));
        }
    }
    Ok(())
}

// Opens a text of at most `limit` bytes, whose header has to be these names.
pub(crate) fn open_headed<'a, const WIDTH: usize>(
    text: &'a [u8],
    limit: usize,
    names: &[&[u8]],
) -> Result<Records<'a, WIDTH>, NamesFault>
    requires { length names.now ≡ WIDTH }
    ensures { MatchResult result (λ r. (r.text.now ≡ text.now) × (opened_by limit (map (λ n. n.now) names.now) text.now ≡ Ok r.position.place)) (λ f. opened_by limit (map (λ n. n.now) names.now) text.now ≡ Err f) }
{
    match Records::open(text, limit) {
        Ok(records) => {
            check_header(text, &records.header(), names)?;
            Ok(records)
        }
        Err(fault) => Err(NamesFault::from(fault)),
    }
}
