ghost use Rattle.std.specs.Prelude.{◌≡◌, ◌<◌, ◌≤◌, MatchResult};

use std::error::Error;
use std::fmt;

/// An event's number, which is below 64.
#[derive(Clone, Copy, PartialEq, Eq, PartialOrd, Ord, Debug)]
pub struct Event {
    number: u8,
    ghost small: { number < 64 },
}

/// Said of a number from 64 on, which is no event's.
#[derive(Clone, Copy, PartialEq, Eq, Debug)]
pub struct NoEvent;

impl fmt::Display for NoEvent {
    ghost use Rattle.std.specs.Prelude.{Some, codes};

    ghost output = { λ _. Some (codes "no event has a number from 64 on") };

    fn fmt<W: fmt::Write>(&self, f: &mut fmt::Formatter<W>) -> fmt::Result {
        f.write_str("no event has a number from 64 on")
    }
}

impl Error for NoEvent {}

impl TryFrom<usize> for Event {
    type Error = NoEvent;

    ghost try_from_gives = { λ n r. MatchResult r (λ e. e.number ≡ n) (λ _. 64 ≤ n) };

    fn try_from(number: usize) -> Result<Event, NoEvent> {
        if number < 64 {
            Ok(Event {
                number: number as u8,
            })
        } else {
            Err(NoEvent)
        }
    }
}

impl From<Event> for usize {
    ghost from_gives = { λ e n. n ≡ e.number };

    fn from(event: Event) -> usize {
        usize::from(event.number)
    }
}
