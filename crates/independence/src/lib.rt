//! Which events are independent of each other: the trait, and its kinds.
#![tactic(auto)]

pub mod apart;
pub mod both;
pub mod footprints;
pub mod never;
pub mod pairs;
pub mod relation;
