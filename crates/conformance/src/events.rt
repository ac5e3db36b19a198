use crate::reading::{PlaceAndNumber, outcome};
use std::alloc::{AllocError, Global};
use std::test::Fail;
use tables::events::EventTable;
use tables::fault::NamesFault;

const HEADER: &str = "event,process,reads,writes\r\n";

// The place and number of a refusal, or none.
fn refused(heap: Global, text: &[u8]) -> Result<Option<PlaceAndNumber>, Fail> {
    let read = outcome(EventTable::read(heap, text).map_err(NamesFault::refusal))?;
    Ok(read.err())
}

// The header and then some records.
fn with_header(heap: Global, records: &[u8]) -> Result<Vec<u8>, AllocError> {
    let mut text = Vec::new(heap);
    text.extend_from_slice(HEADER.as_bytes())?;
    text.extend_from_slice(records)?;
    Ok(text)
}

// What each record has one of its own of; one with its own process has its own event too.
#[derive(Clone, Copy)]
enum Own {
    Event,
    Process,
    Cell,
}

// So many records, whose own names have a number of two digits.
fn many(heap: Global, count: usize, own: Own) -> Result<String, AllocError> {
    let mut text = String::from_str(heap, HEADER)?;
    for i in 0..count {
        let n = i.saturating_add(10);
        match own {
            Own::Event => write!(text, "a{n},a,a,\r\n")?,
            Own::Process => write!(text, "a{n},a{n},a,\r\n")?,
            Own::Cell => write!(text, "a,a,a{n},\r\n")?,
        }
    }
    Ok(text)
}

// A text of 8,192 bytes and `more`.
fn long(heap: Global, more: &str) -> Result<String, AllocError> {
    let mut text = String::from_str(heap, HEADER)?;
    for _ in 0..1165 {
        text.push_str("a,p,,\r\n")?;
    }
    write!(text, "a,p,x{more},y\r\n")?;
    Ok(text)
}

#[test]
fn whole_texts(rt: HostRuntime) -> Result<(), Fail> {
    let heap = rt.alloc();
    assert_eq!(rt; refused(heap, b"")?, Some((0, 4)));
    assert_eq!(rt; refused(heap, b"event,process,reads,writes")?, None);
    assert_eq!(rt; refused(heap, HEADER.as_bytes())?, None);
    assert_eq!(rt;
        refused(heap, b"event,process,reads,writes\r")?,
        Some((26, 3))
    );
    assert_eq!(rt;
        refused(heap, b"event,process,reads,writes\n")?,
        Some((26, 3))
    );
    assert_eq!(rt; refused(heap, b"event,process,reads\r\n")?, Some((0, 4)));
    assert_eq!(rt;
        refused(heap, b"event,process,read,writes\r\n")?,
        Some((14, 5))
    );
    assert_eq!(rt;
        refused(heap, b"Event,process,read,writes\r\n")?,
        Some((0, 5))
    );
    assert_eq!(rt;
        refused(heap, b"event,process,reads,writes \r\n")?,
        Some((20, 5))
    );
    Ok(())
}

#[test]
fn records_behind_a_header(rt: HostRuntime) -> Result<(), Fail> {
    let heap = rt.alloc();
    let cases: [(&[u8], Option<PlaceAndNumber>); 18] = [
        (b"a,p,,", None),
        (b"a,p,x y,y z\r\n", None),
        (b"a,p,,\r\na,p,x,\r\n", None),
        (b"\r\n", Some((28, 4))),
        (b"a,p,,,\r\n", Some((28, 4))),
        (b"a,p,\x7f\r\n", Some((32, 2))),
        (b"a\"b,p,,\r\n", Some((29, 2))),
        (b"a,p,,\rb,p,,", Some((33, 3))),
        (b",p,,", Some((28, 6))),
        (b"1a,p,,", Some((28, 6))),
        (b"a,p-,,\r\na,-p,,", Some((38, 6))),
        (b"a,p,,\r\na,q,,", Some((37, 9))),
        (b"a,p,x  y,", Some((32, 6))),
        (b"a,p,x ,", Some((32, 6))),
        (b"a,p, x,", Some((32, 6))),
        (b"a,p,,x  y", Some((33, 6))),
        (b"a1234567890123456789_-.x,p,,", None),
        (b"a1234567890123456789_-.xx,p,,", Some((28, 6))),
    ];
    for (records, expected) in cases {
        let text = with_header(heap, records)?;
        assert_eq!(rt; refused(heap, text.as_slice())?, expected);
    }
    Ok(())
}

#[test]
fn limits(rt: HostRuntime) -> Result<(), Fail> {
    let heap = rt.alloc();
    // records of 10 bytes, but for those with a process of their own, of 12
    let cases = [
        (64, Own::Event, None),
        (65, Own::Event, Some((668, 7))),
        (16, Own::Process, None),
        (17, Own::Process, Some((224, 7))),
        (64, Own::Cell, None),
        (65, Own::Cell, Some((672, 7))),
    ];
    for (count, own, expected) in cases {
        let text = many(heap, count, own)?;
        assert_eq!(rt; refused(heap, text.as_bytes())?, expected);
    }
    let fits = long(heap, "")?;
    assert_eq!(rt; fits.len(), 8192);
    assert_eq!(rt; refused(heap, fits.as_bytes())?, None);
    let over = long(heap, "x")?;
    assert_eq!(rt; refused(heap, over.as_bytes())?, Some((0, 1)));
    Ok(())
}
