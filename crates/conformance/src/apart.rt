use crate::reading::{PlaceAndNumber, outcome, table};
use std::alloc::{AllocError, Global};
use std::test::Fail;
use tables::apart::read_apart;
use tables::events::EventTable;
use tables::fault::ApartFault;

const EVENTS: &[u8] =
    b"event,process,reads,writes\r\nout,lock,,bolt\r\ncharge,power,,cell\r\nstore,keeper,bolt,book\r\n";

fn read(
    events: &EventTable<'_>,
    text: &[u8],
    store: &mut [(usize, usize)],
) -> Result<Result<usize, PlaceAndNumber>, Fail> {
    outcome(read_apart(events, text, store).map_err(ApartFault::refusal))
}

#[test]
fn lists(rt: HostRuntime) -> Result<(), Fail> {
    let events = table(rt.alloc(), EVENTS)?;
    let cases: [(&[u8], Result<usize, PlaceAndNumber>); 15] = [
        (b"", Err((0, 4))),
        (b"left,right", Ok(0)),
        (b"left,right\r\nlock,power\r\nkeeper,power", Ok(2)),
        (b"left,right\r", Err((10, 3))),
        (b"left\x00,right", Err((4, 2))),
        (b"left,right\r\nlock", Err((12, 4))),
        (b"right,left", Err((0, 5))),
        (b"left,write", Err((5, 5))),
        (b"left,right\r\n,power", Err((12, 6))),
        (b"left,right\r\nlock,", Err((17, 6))),
        (b"left,right\r\nradio,", Err((12, 8))),
        (b"left,right\r\nlock,radio", Err((17, 8))),
        (b"left,right\r\nlock,lock", Err((17, 10))),
        (b"left,right\r\nlock,power\r\nlock,power", Err((29, 11))),
        (b"left,right\r\nlock,power\r\npower,lock", Err((30, 11))),
    ];
    for (text, expected) in cases {
        let mut store = [(7, 7); 120];
        assert_eq!(rt; read(&events, text, &mut store)?, expected);
    }
    Ok(())
}

#[test]
fn store(rt: HostRuntime) -> Result<(), Fail> {
    let events = table(rt.alloc(), EVENTS)?;
    let mut store = [(7, 7); 120];
    assert_eq!(rt;
        read(
            &events,
            b"left,right\r\npower,keeper\r\npower,lock",
            &mut store
        )?,
        Ok(2)
    );
    assert_eq!(rt; store[0], (0, 1));
    assert_eq!(rt; store[1], (1, 2));
    assert_eq!(rt; store[2], (7, 7));
    Ok(())
}

// Processes named a to p, each of an event of its own name.
fn processes(heap: Global) -> Result<String, AllocError> {
    let mut text = String::from_str(heap, "event,process,reads,writes\r\n")?;
    for name in 'a'..='p' {
        write!(text, "{name},{name},,\r\n")?;
    }
    Ok(text)
}

fn all_pairs(heap: Global) -> Result<String, AllocError> {
    let mut text = String::from_str(heap, "left,right\r\n")?;
    for left in 'a'..='p' {
        for right in 'a'..='p' {
            if left < right {
                write!(text, "{right},{left}\r\n")?;
            }
        }
    }
    Ok(text)
}

#[test]
fn all_pairs_fit(rt: HostRuntime) -> Result<(), Fail> {
    let processes = processes(rt.alloc())?;
    let events = table(rt.alloc(), processes.as_bytes())?;
    let text = all_pairs(rt.alloc())?;
    let mut store = [(0, 0); 120];
    assert_eq!(rt; read(&events, text.as_bytes(), &mut store)?, Ok(120));
    assert_eq!(rt; store[119], (14, 15));
    let mut short = [(0, 0); 119];
    assert_eq!(rt; read(&events, b"left,right", &mut short)?, Err((0, 24)));
    Ok(())
}
