//! Reads an event table.
ghost use Rattle.std.specs.Prelude.{◌≡◌, IfOk};
ghost use Rattle.tables.specs.Entering.{no_entries, add_record};
ghost use Rattle.tables.specs.Folding.{records_from};
ghost use Rattle.tables.specs.Tabling.{event_table};
ghost use Rattle.tables.specs.Tabulating.{Tabulated};
ghost use Rattle.tables.specs.Telling.{Told, mapped};

use crate::entries::Entries;
use crate::events::EventTable;
use crate::fault::NamesFault;
use crate::header::open_headed;
use lines::reader::Records;
use std::alloc::Global;

/// The longest event table, in bytes.
pub const EVENTS_LIMIT: usize = 8192;

// Enters the records that are left.
fn read_records(heap: Global, mut records: Records<'_, 4>) -> Result<Entries, NamesFault>
    ensures { Told result (records_from 4 (add_record records.entry.text.now) records.entry.text.now records.entry.position.place no_entries) }
{
    let text = records.text();
    let mut entries = Entries::new(heap);
    while let Some(fields) = records.next_record()? {
        entries.add_record(text, fields)?;
    }
    Ok(entries)
}

impl<'a> EventTable<'a> {
    /// Reads a text whose header is `event,process,reads,writes`; cells are parted by single spaces.
    pub fn read(heap: Global, text: &'a [u8]) -> Result<EventTable<'a>, NamesFault>
        ensures told { Told (mapped (λ t. t.entries) result) (event_table text.now) }
        ensures tabulated { IfOk result (λ t. Tabulated text.now t.entries) }
        ensures kept { IfOk result (λ t. t.text.now ≡ text.now) }
    {
        let names: &[&[u8]] = &[b"event", b"process", b"reads", b"writes"];
        let records = open_headed(text, EVENTS_LIMIT, names)?;
        let entries = read_records(heap, records)?;
        Ok(EventTable { text, entries })
    }
}
