use expressions::{Expr, cat, event, star};
use std::alloc::{AllocError, Global};

fn leaf(number: usize) -> Expr {
    event(number).unwrap_or(Expr::Zero)
}

/// A table of 60 events, each of which writes a cell of its own.
pub fn events_text(heap: Global) -> Result<String, AllocError> {
    let mut text = String::new(heap);
    text.push_str("event,process,reads,writes\r\n")?;
    for i in 0..60 {
        write!(text, "e{i},p,,c{i}\r\n")?;
    }
    Ok(text)
}

/// Any number of rounds of two events.
pub fn rounds(heap: Global) -> Result<Expr, AllocError> {
    star(heap, cat(heap, leaf(0), leaf(1))?)
}

/// So many stars of one event, one after another.
pub fn stars(heap: Global, count: usize) -> Result<Expr, AllocError> {
    let mut whole = Expr::One;
    for _ in 0..count {
        whole = cat(heap, star(heap, leaf(0))?, whole)?;
    }
    Ok(whole)
}

/// The events from 0 on, so many, one after another.
pub fn chain(heap: Global, count: usize) -> Result<Expr, AllocError> {
    let mut whole = Expr::One;
    for i in (0..count).rev() {
        whole = cat(heap, leaf(i), whole)?;
    }
    Ok(whole)
}
