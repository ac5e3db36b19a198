//! The lines that the program prints.
use independence::apart::Apart;
use independence::both::Both;
use independence::footprints::Footprints;
use independence::pairs::independent_pairs;
use independence::relation::Independence;
use lines::fault::Refusal;
use std::alloc::{AllocError, Global};
use std::io::{self, ErrorKind};
use std::str;
use tables::apart::{PAIR_LIMIT, read_apart};
use tables::events::EventTable;
use tables::row::Access;

// A name as text, since the bytes of names are ASCII; nothing for a number that has none.
fn shown(name: Option<&[u8]>) -> &str {
    str::from_utf8(name.unwrap_or(b"")).unwrap_or("")
}

// What is printed of a table, as far as it is written.
#[derive(Drop)]
struct Listing<'t> {
    table: &'t EventTable<'t>,
    out: String,
}

impl<'t> Listing<'t> {
    fn process_name(&self, event: usize) -> Option<&'t [u8]> {
        self.table.processes().get(self.table.process(event)?)
    }

    // A field with the cells that the event reads or writes.
    fn push_cells(&mut self, what: &str, event: usize, access: Access) -> Result<(), AllocError> {
        write!(self.out, ",{what}")?;
        for (cell, name) in self.table.cells().iter().enumerate() {
            if self.table.lists(event, access, cell) {
                write!(self.out, " {}", shown(Some(name)))?;
            }
        }
        Ok(())
    }

    // A line for each event: number, name, process, and the cells that it reads and writes.
    fn push_events(&mut self) -> Result<(), AllocError> {
        for (event, name) in self.table.events().iter().enumerate() {
            let process = shown(self.process_name(event));
            write!(self.out, "{event},{},{process}", shown(Some(name)))?;
            self.push_cells("reads", event, Access::Read)?;
            self.push_cells("writes", event, Access::Write)?;
            self.out.push_str("\r\n")?;
        }
        Ok(())
    }

    // A line for each two events that may change places.
    fn push_pairs<I: Independence>(&mut self, heap: Global, rule: &I) -> Result<(), AllocError> {
        let events = self.table.events();
        for (a, b) in independent_pairs(heap, rule)? {
            let (a, b) = (shown(events.get(a)), shown(events.get(b)));
            write!(self.out, "independent,{a},{b}\r\n")?;
        }
        Ok(())
    }
}

// A report's header and the record of a fault; want of memory is no record.
fn fault_report(heap: Global, kind: &str, refusal: Option<Refusal>) -> io::Result<String> {
    let Some(Refusal { place, number, .. }) = refusal else {
        return Err(ErrorKind::OutOfMemory.into());
    };
    Ok(format!(in heap; "kind,place,event\r\n{kind},{place},{number}\r\n")?)
}

// The events, and which of them are independent by their cells and by the pairs of processes that may run apart.
fn rules<'x>(
    heap: Global,
    table: &'x EventTable<'x>,
    pairs: &'x [(usize, usize)],
) -> Result<String, AllocError> {
    let mut listing = Listing {
        table,
        out: String::new(heap),
    };
    listing.push_events()?;
    let rule = Both {
        first: Footprints::new(table),
        second: Apart::new(table, pairs),
    };
    listing.push_pairs(heap, &rule)?;
    let Listing { out, .. } = listing;
    Ok(out)
}

fn with_apart<'x>(heap: Global, table: &'x EventTable<'x>, apart: &[u8]) -> io::Result<String> {
    let mut store = [(0, 0); PAIR_LIMIT];
    match read_apart(table, apart, &mut store) {
        Ok(count) => Ok(rules(heap, table, &store[..count])?),
        Err(fault) => fault_report(heap, "fault-apart", fault.refusal()),
    }
}

// What is printed for the texts of an event table and an apart list.
pub(crate) fn listed(heap: Global, events: &[u8], apart: &[u8]) -> io::Result<String> {
    match EventTable::read(heap, events) {
        Ok(table) => with_apart(heap, &table, apart),
        Err(fault) => fault_report(heap, "fault-events", fault.refusal()),
    }
}
