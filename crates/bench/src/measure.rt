use std::io;
use std::time::Instant;

/// The time since a start.
#[derive(Drop)]
pub struct Stopwatch {
    start: Instant,
}

impl Stopwatch {
    /// Starts now.
    pub fn start(rt: &HostRuntime) -> io::Result<Stopwatch> {
        Ok(Stopwatch {
            start: Instant::now(rt)?,
        })
    }

    /// Writes how long one of so many turns took, and how many there are in a second.
    pub fn report(self, rt: &HostRuntime, what: &str, turns: u32) -> io::Result<()> {
        let Stopwatch { start } = self;
        let nanos = start.elapsed(rt)?.as_nanos();
        let each = nanos / u128::from(turns.max(1));
        let rate = 1_000_000_000 / each.max(1);
        eprintln!(rt; "{what}: {each} ns each, {rate} a second")
    }
}
