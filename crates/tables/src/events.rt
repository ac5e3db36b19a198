//! The table of events.
ghost use Rattle.std.specs.Prelude.{◌≡◌, Ok};
ghost use Rattle.tables.specs.Tabling.{event_table};

use crate::entries::Entries;

pub mod ask;
pub mod read;

/// The most events that a table has.
pub const EVENT_LIMIT: usize = 64;

/// What a text tabulates, and the text, of which every name is a part.
#[derive(Drop)]
pub struct EventTable<'a> {
    text: &'a [u8],
    entries: Entries,
    ghost exact: { ∥ event_table text.now ≡ Ok entries ∥₁ },
}
