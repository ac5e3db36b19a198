//! A field, by where it stands in its text, and the parts of one.
ghost use Rattle.std.specs.Prelude.{◌≡◌, drop};
ghost use Rattle.std.specs.Str.{bytes_eq};
ghost use Rattle.lines.specs.Fields.{bytes_of, parted, fields_at, exactly};
ghost use Rattle.lines.specs.Parts.{parts_left};

use crate::scan::part_len;

/// Where a field stands in its text: the bytes before it, and its own. It holds no text.
#[derive(Clone, Copy, PartialEq, Eq, Debug)]
pub struct Field {
    pub start: usize,
    pub len: usize,
}

impl Field {
    // The text as far as the field goes.
    fn upto<'a>(self, text: &'a [u8]) -> &'a [u8]
        ensures { drop self.start result.now ≡ bytes_of text.now self }
    {
        &text[..self.start.saturating_add(self.len).min(text.len())]
    }

    /// The part of `text` that the field is; in a text that ends before, as much of it as there is.
    pub fn bytes<'a>(self, text: &'a [u8]) -> &'a [u8]
        ensures { result.now ≡ bytes_of text.now self }
    {
        let (_, rest) = text.split_at(self.start.min(text.len()));
        &rest[..self.len.min(rest.len())]
    }

    /// Whether the field is just these bytes.
    pub fn holds(self, text: &[u8], bytes: &[u8]) -> bool
        ensures { result ≡ bytes_eq (bytes_of text.now self) bytes.now }
    {
        self.bytes(text) == bytes
    }

    /// The fields into which a separator parts the field's bytes.
    pub fn parts<'a>(self, text: &'a [u8], separator: u8) -> Parts<'a>
        ensures { parts_left result ≡ parted separator self.start self.start (bytes_of text.now self) }
    {
        Parts {
            text: self.upto(text),
            start: Some(self.start),
            separator,
        }
    }

    // The fields that commas part, if there are WIDTH of them.
    pub(crate) fn split<const WIDTH: usize>(self, text: &[u8]) -> Option<[Field; WIDTH]>
        ensures { result ≡ exactly WIDTH (fields_at self.start (bytes_of text.now self)) }
    {
        let mut fields = [self; WIDTH];
        let mut parts = self.parts(text, b',');
        for field in fields.iter_mut() {
            *field = parts.next()?;
        }
        parts.next().is_none().then_some(fields)
    }
}

/// The parts of a field between separators, from the front on.
#[derive(Clone, Debug, Drop)]
pub struct Parts<'a> {
    // It ends where the field does.
    text: &'a [u8],
    // The next part's, if there is one more.
    start: Option<usize>,
    separator: u8,
}

impl<'a> Iterator for Parts<'a> {
    ghost use Rattle.std.specs.Iterator.{YieldsFirst, item_count};
    ghost use Rattle.lines.specs.Parts.{parts_left};

    type Item = Field;

    ghost next_gives = { YieldsFirst parts_left };

    ghost remaining = { item_count parts_left };

    #[tactic(auto, using(crate::proofs::FirstPart::part_taken))]
    fn next(&mut self) -> Option<Field> {
        let start = self.start?;
        let len = part_len(self.text, start, self.separator);
        let end = start + len;
        self.start = (end < self.text.len()).then(|| end + 1);
        Some(Field { start, len })
    }
}
