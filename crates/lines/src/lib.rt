//! Comma-separated records of a byte text.
#![tactic(auto)]

pub mod fault;
pub mod field;
pub mod reader;
mod scan;
