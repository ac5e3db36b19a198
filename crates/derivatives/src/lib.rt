//! What an expression keeps beside an event, and its derivatives by the event, up to exchanges of independent events.
#![tactic(auto)]

mod derive;
mod kept;
mod step;

pub use step::Step;
