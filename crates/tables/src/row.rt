//! The row of an event: its process, and the cells that it reads and writes.
ghost use Rattle.std.specs.Prelude.{◌≡◌, true, false, [], ◌∷◌, ◌++◌, is_some, IfSome, is_ok, if◌then◌else◌, length, nat_lt, slice_index_or, slice_set};
ghost use Rattle.std.specs.Borrow.{sem, LendsIf};
ghost use Rattle.tables.specs.contracts.row.EventRow.{the_row as event_row};
ghost use Rattle.tables.specs.contracts.row.Rows.{the_row as rows_row};
ghost use Rattle.tables.specs.Rowing.{with_cell, empty_row, lists, row_of, rows_with};

use std::alloc::{AllocFailed, Global};
use std::marker::Model;

pub(crate) const CELL_LIMIT: usize = 64;

/// What an event does to a cell.
#[derive(Clone, Copy, PartialEq, Eq, Debug)]
pub enum Access {
    Read,
    Write,
}

// A set of cells, by number.
#[derive(Clone, Copy)]
pub(crate) struct CellSet {
    listed: [bool; CELL_LIMIT],
}

impl CellSet {
    // A number that is no cell's adds nothing.
    fn insert(&mut self, cell: usize)
        ensures { self.new.listed ≡ slice_set self.old.listed cell true }
    {
        if cell < CELL_LIMIT {
            self.listed[cell] = true;
        }
    }

    fn contains(&self, cell: usize) -> bool
        ensures { result ≡ slice_index_or self.now.listed cell false }
    {
        self.listed.get(cell).copied().unwrap_or(false)
    }
}

#[derive(Clone, Copy)]
pub(crate) struct EventRow {
    process: usize,
    reads: CellSet,
    writes: CellSet,
}

impl EventRow {
    pub(crate) fn new(process: usize) -> EventRow
        ensures { result ≡ empty_row process }
    {
        let none = CellSet {
            listed: [false; CELL_LIMIT],
        };
        EventRow {
            process,
            reads: none,
            writes: none,
        }
    }

    pub(crate) fn process(&self) -> usize
        ensures { result ≡ self.now.process }
    {
        self.process
    }

    pub(crate) fn add_cell(&mut self, access: Access, cell: usize)
        ensures { self.new ≡ with_cell access cell self.old }
    {
        match access {
            Access::Read => self.reads.insert(cell),
            Access::Write => self.writes.insert(cell),
        }
    }

    pub(crate) fn lists(&self, access: Access, cell: usize) -> bool
        ensures { result ≡ lists access cell self.now }
    {
        match access {
            Access::Read => self.reads.contains(cell),
            Access::Write => self.writes.contains(cell),
        }
    }
}

// The rows of the events, by number.
#[derive(Drop)]
pub(crate) struct Rows {
    rows: Vec<EventRow>,
}

impl Model for Rows {
    ghost use Rattle.std.specs.Prelude.{List};
    ghost use Rattle.tables.specs.declared.row.EventRow.{EventRow};

    ghost Value = { List EventRow };

    ghost view = { λ r. r.rows.items };
}

impl Rows {
    pub(crate) fn new(heap: Global) -> Rows
        ensures { result ≡ [] }
    {
        Rows {
            rows: Vec::new(heap),
        }
    }

    pub(crate) fn push(&mut self, row: EventRow) -> Result<(), AllocFailed<EventRow>>
        ensures { self.new ≡ (if is_ok result then self.old ++ row ∷ [] else self.old) }
    {
        self.rows.push(row)
    }

    // Lends the row of an event.
    pub(crate) fn row_mut(&mut self, event: usize) -> Option<&mut EventRow>
        ensures* writes_back { sem 𝓛 (LendsIf rows_row event_row self.entry result (λ w. slice_set self.old event w) self.old) }
        ensures facts { (is_some result ≡ nat_lt event (length self.old)) × IfSome result (λ x. x.now ≡ slice_index_or self.old event x.now) }
    {
        self.rows.get_mut(event)
    }

    pub(crate) fn get(&self, event: usize) -> Option<EventRow>
        ensures { result ≡ row_of self.now event }
    {
        self.rows.get(event).copied()
    }

    // Gives the event's row one more cell; a number that is no event's changes nothing.
    pub(crate) fn add_cell(&mut self, event: usize, access: Access, cell: usize)
        ensures { self.new ≡ rows_with access cell event self.old }
    {
        if let Some(row) = self.row_mut(event) {
            row.add_cell(access, cell);
        }
    }
}
