//! What an event table answers.
ghost use Rattle.std.specs.Prelude.{◌≡◌};
ghost use Rattle.tables.specs.Rowing.{row_of, process_of, lists_at};

use crate::events::EventTable;
use crate::names::Names;
use crate::row::Access;

impl<'a> EventTable<'a> {
    /// The names of the events.
    pub fn events(&self) -> Names<'a, '_>
        ensures text { result.text.now ≡ self.now.text.now }
        ensures fields { result.fields.now ≡ self.now.entries.events }
    {
        self.entries.events.names(self.text)
    }

    /// The names of the processes.
    pub fn processes(&self) -> Names<'a, '_>
        ensures text { result.text.now ≡ self.now.text.now }
        ensures fields { result.fields.now ≡ self.now.entries.processes }
    {
        self.entries.processes.names(self.text)
    }

    /// The names of the cells.
    pub fn cells(&self) -> Names<'a, '_>
        ensures text { result.text.now ≡ self.now.text.now }
        ensures fields { result.fields.now ≡ self.now.entries.cells }
    {
        self.entries.cells.names(self.text)
    }

    /// The number of an event's process.
    pub fn process(&self, event: usize) -> Option<usize>
        ensures { result ≡ process_of (row_of self.now.entries.rows event) }
    {
        self.entries.row(event).map(|row| row.process())
    }

    /// Whether an event reads, or writes, a cell.
    pub fn lists(&self, event: usize, access: Access, cell: usize) -> bool
        ensures { result ≡ lists_at access cell (row_of self.now.entries.rows event) }
    {
        self.entries
            .row(event)
            .is_some_and(|row| row.lists(access, cell))
    }
}
