//! The entries of an event table, as its records are read.
ghost use Rattle.std.specs.Prelude.{◌≡◌};
ghost use Rattle.lines.specs.Fields.{bytes_of};
ghost use Rattle.tables.specs.Numbering.{number_of};
ghost use Rattle.tables.specs.Rowing.{row_of};
ghost use Rattle.tables.specs.Entering.{no_entries, is_number, settled, add_cell, add_cells, add_event, add_record};
ghost use Rattle.tables.specs.Telling.{Told, paired, leaving};

use crate::events::EVENT_LIMIT;
use crate::fault::NamesFault;
use crate::name::check_name;
use crate::numbering::Numbering;
use crate::row::{Access, CELL_LIMIT, EventRow, Rows};
use lines::field::Field;
use std::alloc::Global;

pub(crate) const PROCESS_LIMIT: usize = 16;

// The names of events, processes and cells, and a row for each event.
#[derive(Drop)]
pub(crate) struct Entries {
    pub(crate) events: Numbering,
    pub(crate) processes: Numbering,
    pub(crate) cells: Numbering,
    rows: Rows,
}

impl Entries {
    pub(crate) fn new(heap: Global) -> Entries
        ensures { result ≡ no_entries }
    {
        Entries {
            events: Numbering::new(heap),
            processes: Numbering::new(heap),
            cells: Numbering::new(heap),
            rows: Rows::new(heap),
        }
    }

    // Whether the name in a field is that of the process with a number.
    fn is_process(&self, text: &[u8], field: Field, number: usize) -> bool
        ensures { result ≡ is_number number (number_of text.now self.now.processes (bytes_of text.now field)) }
    {
        self.processes
            .names(text)
            .find(field.bytes(text))
            .is_some_and(|known| known == number)
    }

    // A known event has to keep its process; a new one gets a row.
    fn settle(&mut self, text: &[u8], event: usize, process: Field) -> Result<(), NamesFault>
        ensures { Told (leaving result self.new) (settled text.now event process self.old) }
    {
        match self.rows.get(event) {
            Some(row) => {
                if self.is_process(text, process, row.process()) {
                    Ok(())
                } else {
                    Err(NamesFault::OtherProcess(process.start))
                }
            }
            None => {
                let number = self
                    .processes
                    .number(text, process, PROCESS_LIMIT, process.start)?;
                self.rows.push(EventRow::new(number))?;
                Ok(())
            }
        }
    }

    // The number of a record's event, which has its process then.
    fn add_event(&mut self, text: &[u8], event: Field, process: Field) -> Result<usize, NamesFault>
        ensures { Told (paired result self.new) (add_event text.now event process self.old) }
    {
        check_name(text, event, event.start)?;
        let number = self.events.number(text, event, EVENT_LIMIT, event.start)?;
        check_name(text, process, process.start)?;
        self.settle(text, number, process)?;
        Ok(number)
    }

    // A fault of a cell stands at the field that lists it, `place`.
    fn add_cell(
        &mut self,
        text: &[u8],
        event: usize,
        access: Access,
        place: usize,
        cell: Field,
    ) -> Result<(), NamesFault>
        ensures { Told (leaving result self.new) (add_cell text.now event access place cell self.old) }
    {
        check_name(text, cell, place)?;
        let number = self.cells.number(text, cell, CELL_LIMIT, place)?;
        self.rows.add_cell(event, access, number);
        Ok(())
    }

    // Adds the cells of a field, which single spaces part; an empty field lists none.
    fn add_cells(
        &mut self,
        text: &[u8],
        event: usize,
        access: Access,
        field: Field,
    ) -> Result<(), NamesFault>
        ensures { Told (leaving result self.new) (add_cells text.now event access field self.old) }
    {
        if field.bytes(text).is_empty() {
            return Ok(());
        }
        for cell in field.parts(text, b' ') {
            self.add_cell(text, event, access, field.start, cell)?;
        }
        Ok(())
    }

    pub(crate) fn add_record(&mut self, text: &[u8], fields: [Field; 4]) -> Result<(), NamesFault>
        ensures { Told (leaving result self.new) (add_record text.now fields self.old) }
    {
        let [event, process, reads, writes] = fields;
        let number = self.add_event(text, event, process)?;
        self.add_cells(text, number, Access::Read, reads)?;
        self.add_cells(text, number, Access::Write, writes)
    }

    pub(crate) fn row(&self, event: usize) -> Option<EventRow>
        ensures { result ≡ row_of self.now.rows event }
    {
        self.rows.get(event)
    }
}
