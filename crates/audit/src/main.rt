//! Reads the event table and the apart list of the folder that it is run in, and prints the events and which of them
//! are independent, or why one of the texts is refused.
#![tactic(auto)]

use std::io::{Read, Write};
use std::{fs, io};
use tables::apart::APART_LIMIT;
use tables::events::read::EVENTS_LIMIT;

mod listing;

// At most one byte more than the limit, which is enough to see that a text is too long.
fn read_text(rt: &HostRuntime, path: &str, limit: usize) -> io::Result<Vec<u8>> {
    let mut text = Vec::new(rt.alloc());
    let most = (limit as u64).saturating_add(1);
    fs::open(rt, path)?.take(most).read_to_end(&mut text)?;
    Ok(text)
}

fn read_named(rt: &HostRuntime, path: &str, limit: usize) -> io::Result<Vec<u8>> {
    match read_text(rt, path, limit) {
        Ok(text) => Ok(text),
        Err(e) => {
            eprintln!(rt; "audit: {path}: {e}")?;
            Err(e)
        }
    }
}

fn main(rt: HostRuntime) -> io::Result<()> {
    let events = read_named(&rt, "events.csv", EVENTS_LIMIT)?;
    let apart = read_named(&rt, "apart.csv", APART_LIMIT)?;
    let listed = listing::listed(rt.alloc(), events.as_slice(), apart.as_slice())?;
    rt.stdout().write_all(listed.as_bytes())
}
