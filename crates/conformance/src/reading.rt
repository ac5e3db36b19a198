use lines::fault::Refusal;
use std::alloc::Global;
use std::test::Fail;
use tables::events::EventTable;

// Where and why a text is refused.
pub(crate) type PlaceAndNumber = (usize, u8);

// Two events of two processes, which write a cell each.
pub(crate) const EVENTS: &[u8] =
    b"event,process,reads,writes\r\nout,lock,,bolt\r\ncharge,power,,cell\r\n";

// What was read, or where and why that was refused.
pub(crate) fn outcome<T>(
    read: Result<T, Option<Refusal>>,
) -> Result<Result<T, PlaceAndNumber>, Fail> {
    match read {
        Ok(read) => Ok(Ok(read)),
        Err(Some(refusal)) => Ok(Err((refusal.place, refusal.number))),
        Err(None) => Err(Fail::new("no memory")),
    }
}

// The table of a text that is not refused.
pub(crate) fn table(heap: Global, text: &[u8]) -> Result<EventTable<'_>, Fail> {
    EventTable::read(heap, text).map_err(|_| Fail::new("no table"))
}
