//! Reads a log: the events that happened, one after another.
ghost use Rattle.std.specs.Prelude.{◌≡◌, IfOk, Ok, Err, MatchResult};
ghost use Rattle.tables.specs.Logging.{opened_log, upcoming, event_of, place_behind, Logged};

use crate::events::EventTable;
use crate::fault::NamesFault;
use crate::header::open_headed;
use lines::reader::Records;

/// The longest log, in bytes.
pub const LOG_LIMIT: usize = 16384;

/// The records of a log, each an event of the table.
#[derive(Drop)]
pub struct LogReader<'a> {
    events: &'a EventTable<'a>,
    records: Records<'a, 1>,
}

impl<'a> LogReader<'a> {
    /// Reads the header, which is `event`, and stands before the first event.
    pub fn open(events: &'a EventTable<'a>, text: &'a [u8]) -> Result<LogReader<'a>, NamesFault>
        ensures result { MatchResult result (λ l. (l.records.text.now ≡ text.now) × (opened_log text.now ≡ Ok l.records.position.place)) (λ f. opened_log text.now ≡ Err f) }
        ensures over { IfOk result (λ l. l.events.now ≡ events.now) }
        ensures logged { IfOk result (λ l. Logged events.now.text.now events.now.entries text.now l.records.position.place) }
    {
        let records = open_headed(text, LOG_LIMIT, &[b"event"])?;
        Ok(LogReader { events, records })
    }

    /// The number of the next event, or none at the end of the log. A refusal leaves the reader where it stood.
    pub fn next_event(&mut self) -> Result<Option<usize>, NamesFault>
        ensures read { result ≡ event_of (upcoming self.old) }
        ensures moved { self.new.records.position.place ≡ place_behind self.old.records.position.place (upcoming self.old) }
        ensures kept { (self.new.events ≡ self.old.events) × (self.new.records.text ≡ self.old.records.text) × (self.new.records.header ≡ self.old.records.header) }
    {
        let before = self.records.position();
        let Some(fields) = self.records.next_record()? else {
            return Ok(None);
        };
        let [name] = fields;
        match self.events.events().known(self.records.text(), name) {
            Ok(event) => Ok(Some(event)),
            Err(fault) => {
                self.records.seek(before);
                Err(fault)
            }
        }
    }
}
