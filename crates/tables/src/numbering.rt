//! Numbers for names as they appear: each takes the number of names that appeared before it.
ghost use Rattle.std.specs.Prelude.{◌≡◌, []};
ghost use Rattle.tables.specs.Numbering.{numbered};
ghost use Rattle.tables.specs.Telling.{Told, paired};

use crate::fault::NamesFault;
use crate::names::Names;
use lines::field::Field;
use std::alloc::Global;
use std::marker::Model;

// Each name by the field in which it first appeared.
#[derive(Drop)]
pub(crate) struct Numbering {
    fields: Vec<Field>,
}

impl Model for Numbering {
    ghost use Rattle.std.specs.Prelude.{List};
    ghost use Rattle.lines.specs.declared.field.Field.{Field};

    ghost Value = { List Field };

    ghost view = { λ n. n.fields.items };
}

impl Numbering {
    pub(crate) fn new(heap: Global) -> Numbering
        ensures { result ≡ [] }
    {
        Numbering {
            fields: Vec::new(heap),
        }
    }

    // The names so far; `text` is that of their fields.
    pub(crate) fn names<'a>(&self, text: &'a [u8]) -> Names<'a, '_>
        ensures text { result.text.now ≡ text.now }
        ensures fields { result.fields.now ≡ self.now }
    {
        Names::new(text, self.fields.as_slice())
    }

    // The number of the name in a field; a new name takes the next number, if there are fewer than `limit`.
    pub(crate) fn number(
        &mut self,
        text: &[u8],
        field: Field,
        limit: usize,
        place: usize,
    ) -> Result<usize, NamesFault>
        ensures { Told (paired result self.new) (numbered text.now self.old field limit place) }
    {
        if let Some(number) = self.names(text).find(field.bytes(text)) {
            return Ok(number);
        }
        let count = self.fields.len();
        if count >= limit {
            return Err(NamesFault::TooMany(place));
        }
        self.fields.push(field)?;
        Ok(count)
    }
}
