//! Tables of names: what a name is, and the table of events with what each reads and writes.
#![tactic(auto)]

pub mod apart;
mod entries;
pub mod events;
pub mod fault;
mod header;
mod laws;
pub mod log;
pub mod name;
pub mod names;
mod numbering;
pub mod row;

pub use laws::comparing_pairs;
