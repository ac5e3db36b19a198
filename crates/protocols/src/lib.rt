//! Protocols: content models over the events of a table, read from a text.
#![tactic(auto)]

mod protocol;

pub use protocol::Protocol;
