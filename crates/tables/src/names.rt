//! Names by number, as they stand in a text.
ghost use Rattle.std.specs.Prelude.{◌≡◌, length};
ghost use Rattle.std.specs.Option.{option_map};
ghost use Rattle.tables.specs.Knowing.{known_in};
ghost use Rattle.tables.specs.Numbering.{name_at, number_of};
ghost use Rattle.tables.specs.Tabulating.{names_of};
ghost use Rattle.tables.specs.Walking.{names_left};

use crate::fault::NamesFault;
use crate::name::check_name;
use lines::field::Field;

/// The names of one kind, numbered from 0, each by the field of the text in which it first appeared.
#[derive(Clone, Copy)]
pub struct Names<'a, 'f> {
    text: &'a [u8],
    fields: &'f [Field],
}

impl<'a, 'f> Names<'a, 'f> {
    pub(crate) fn new(text: &'a [u8], fields: &'f [Field]) -> Names<'a, 'f>
        ensures text { result.text.now ≡ text.now }
        ensures fields { result.fields.now ≡ fields.now }
    {
        Names { text, fields }
    }

    /// How many names there are; their numbers lie below it.
    pub fn len(&self) -> usize
        ensures { result ≡ length self.now.fields.now }
    {
        self.fields.len()
    }

    /// The name with a number, a part of the text.
    pub fn get(&self, number: usize) -> Option<&'a [u8]>
        ensures { option_map (λ x. x.now) result ≡ name_at self.now.text.now self.now.fields.now number }
    {
        self.fields.get(number).map(|field| field.bytes(self.text))
    }

    /// The names, in the order of their numbers.
    pub fn iter(&self) -> Iter<'a, 'f>
        ensures { names_left result ≡ names_of self.now.text.now self.now.fields.now }
    {
        Iter {
            text: self.text,
            fields: self.fields,
        }
    }

    /// The number of a name.
    pub fn find(&self, name: &[u8]) -> Option<usize>
        ensures { result ≡ number_of self.now.text.now self.now.fields.now name.now }
    {
        self.fields
            .iter()
            .position(|field| field.holds(self.text, name))
    }

    // The number of the name that a field of another text holds.
    pub(crate) fn known(&self, text: &[u8], field: Field) -> Result<usize, NamesFault>
        ensures { result ≡ known_in self.now.text.now self.now.fields.now text.now field }
    {
        check_name(text, field, field.start)?;
        self.find(field.bytes(text))
            .ok_or(NamesFault::Unknown(field.start))
    }
}

/// Gives the names in the order of their numbers.
#[derive(Clone, Drop)]
pub struct Iter<'a, 'f> {
    text: &'a [u8],
    // Those of the names that are left.
    fields: &'f [Field],
}

impl<'a, 'f> Iterator for Iter<'a, 'f> {
    ghost use Rattle.std.specs.Iterator.{YieldsFirstRef, item_count};
    ghost use Rattle.tables.specs.Walking.{names_left};

    type Item = &'a [u8];

    ghost next_gives = { YieldsFirstRef names_left };

    ghost remaining = { item_count names_left };

    fn next(&mut self) -> Option<&'a [u8]> {
        let (field, rest) = self.fields.split_first()?;
        self.fields = rest;
        Some(field.bytes(self.text))
    }
}
