//! A list in strictly rising order, over a store that the caller lends.
#![tactic(auto)]

mod full;
mod laws;
mod list;
mod order;
mod pairs;
mod place;
#[cfg(test)]
mod tests;

pub use full::Full;
pub use laws::adding_in_turn;
pub use list::OrderedList;
pub use order::TotalOrder;
