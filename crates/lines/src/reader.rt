//! Reads the records of a text one after another.
ghost use Rattle.std.specs.Prelude.{◌≡◌, ◌<◌, ◌≤◌, length, Ok, Err, MatchResult};
ghost use Rattle.lines.specs.Reading.{record_at, opened, next_record, fields_in, place_after, WithRecord};
ghost use Rattle.lines.specs.Texts.{Rejoins, ReadsWritten};

use crate::fault::LinesFault;
use crate::field::Field;
use crate::scan::{body_len, next_line};

/// Where the reader stands: the first byte of the next record, or the end of the text.
#[derive(Clone, Copy, PartialEq, Eq, Debug)]
pub struct Position {
    pub place: usize,
}

/// A text whose records have WIDTH fields, read as far as its position; the header is read already.
#[derive(Drop)]
pub struct Records<'a, const WIDTH: usize> {
    text: &'a [u8],
    header: [Field; WIDTH],
    position: Position,
}

// The record at `place`, and where the reader goes on behind it.
fn record_at<const WIDTH: usize>(
    text: &[u8],
    place: usize,
) -> Result<([Field; WIDTH], usize), LinesFault>
    ensures { result ≡ record_at WIDTH text.now place }
{
    let len = body_len(text, place);
    let next = next_line(text, place + len)?;
    let record = Field { start: place, len };
    let fields = record.split(text).ok_or(LinesFault::FieldCount(place))?;
    Ok((fields, next))
}

impl<'a, const WIDTH: usize> Records<'a, WIDTH> {
    /// Takes a text of at most `limit` bytes and reads its first record, the header.
    #[tactic(auto, using(crate::proofs::Rejoining::rejoins, crate::proofs::Accepting::reads_written))]
    pub fn open(text: &'a [u8], limit: usize) -> Result<Self, LinesFault>
        ensures result { MatchResult result (λ q. (q.text.now ≡ text.now) × (opened WIDTH limit text.now ≡ Ok (q.header, q.position.place))) (λ f. opened WIDTH limit text.now ≡ Err f) }
        ensures rejoins { Rejoins WIDTH limit text.now }
        ensures accepts { ReadsWritten WIDTH limit text.now }
    {
        if text.len() > limit {
            return Err(LinesFault::TooLong);
        }
        let (header, place) = record_at(text, 0)?;
        Ok(Records {
            text,
            header,
            position: Position { place },
        })
    }

    /// The fields of the first record.
    pub fn header(&self) -> [Field; WIDTH]
        ensures { result ≡ self.now.header }
    {
        self.header
    }

    /// The whole text.
    pub fn text(&self) -> &'a [u8]
        ensures { result.now ≡ self.now.text.now }
    {
        self.text
    }

    /// Where the reader stands; `seek` goes back there.
    pub fn position(&self) -> Position
        ensures { result ≡ self.now.position }
    {
        self.position
    }

    /// Goes on from a position, as one that the reader had before.
    pub fn seek(&mut self, position: Position)
        ensures moved { self.new.position ≡ position }
        ensures kept { (self.new.text ≡ self.old.text) × (self.new.header ≡ self.old.header) }
    {
        self.position = position;
    }

    /// The next record, or none at the end of the text. A refusal leaves the reader where it stood.
    #[tactic(auto, using(crate::proofs::Forward::record_forward))]
    pub fn next_record(&mut self) -> Result<Option<[Field; WIDTH]>, LinesFault>
        ensures read { result ≡ fields_in (next_record WIDTH self.old.text.now self.old.position.place) }
        ensures moved { self.new.position.place ≡ place_after self.old.position.place (next_record WIDTH self.old.text.now self.old.position.place) }
        ensures forward { WithRecord result ((self.old.position.place < self.new.position.place) × (self.new.position.place ≤ length self.old.text.now)) }
        ensures kept { (self.new.text ≡ self.old.text) × (self.new.header ≡ self.old.header) }
    {
        let place = self.position.place;
        if place >= self.text.len() {
            return Ok(None);
        }
        let (fields, next) = record_at(self.text, place)?;
        self.position.place = next;
        Ok(Some(fields))
    }
}
