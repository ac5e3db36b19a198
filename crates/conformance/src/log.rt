use crate::reading::{EVENTS, PlaceAndNumber, outcome, table};
use std::process::Abort;
use std::test::Fail;
use tables::events::EventTable;
use tables::fault::NamesFault;
use tables::log::LogReader;

// How many events there are up to the end or a refusal, which is given with its place and number.
fn read<'x>(
    events: &'x EventTable<'x>,
    text: &'x [u8],
) -> Result<(usize, Option<PlaceAndNumber>), Fail> {
    match outcome(LogReader::open(events, text).map_err(NamesFault::refusal))? {
        Ok(log) => count(log, text.len()),
        Err(refusal) => Ok((0, Some(refusal))),
    }
}

fn count(mut log: LogReader<'_>, most: usize) -> Result<(usize, Option<PlaceAndNumber>), Fail> {
    for events in 0..most {
        match outcome(log.next_event().map_err(NamesFault::refusal))? {
            Ok(Some(_)) => (),
            Ok(None) => return Ok((events, None)),
            Err(refusal) => return Ok((events, Some(refusal))),
        }
    }
    Ok((most, None))
}

#[test]
fn logs(rt: HostRuntime) -> Result<(), Fail> {
    let events = table(rt.alloc(), EVENTS)?;
    let cases: [(&[u8], (usize, Option<PlaceAndNumber>)); 11] = [
        (b"", (0, Some((0, 5)))),
        (b"event", (0, None)),
        (b"event\r\n", (0, None)),
        (b"event\r\nout\r\ncharge\r\nout", (3, None)),
        (b"events", (0, Some((0, 5)))),
        (b"event,", (0, Some((0, 4)))),
        (b"event\n", (0, Some((5, 3)))),
        (b"event\r\nout\r\n\r\nout", (1, Some((12, 6)))),
        (b"event\r\nout\r\nstore\r\nout", (1, Some((12, 8)))),
        (b"event\r\nout,out", (0, Some((7, 4)))),
        (b"event\r\nout\x80", (0, Some((10, 2)))),
    ];
    for (text, expected) in cases {
        assert_eq!(rt; read(&events, text)?, expected);
    }
    Ok(())
}

// One byte more than a log may have.
static LONG: [u8; 16385] = [b'x'; 16385];

#[test]
fn limits_and_repeats(rt: HostRuntime) -> Result<(), Fail> {
    let events = table(rt.alloc(), EVENTS)?;
    assert_eq!(rt; read(&events, &LONG[0..16384])?, (0, Some((0, 5))));
    assert_eq!(rt; read(&events, &LONG)?, (0, Some((0, 1))));
    again(&rt, &events, b"event\r\nin\r\n")
}

// A refused reading leaves the reader as it stood.
fn again<'x>(rt: &impl Abort, events: &'x EventTable<'x>, text: &'x [u8]) -> Result<(), Fail> {
    let Ok(mut log) = LogReader::open(events, text) else {
        return Err(Fail::new("no log"));
    };
    for _ in 0..2 {
        let read = outcome(log.next_event().map_err(NamesFault::refusal))?;
        assert_eq!(rt; read, Err((7, 8)));
    }
    Ok(())
}
