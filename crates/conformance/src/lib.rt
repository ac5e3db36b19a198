//! Texts at every refusal and every edge, and what reading them gives; what comes of expressions.
#![tactic(auto)]

#[cfg(test)]
mod apart;
#[cfg(test)]
mod events;
#[cfg(test)]
mod log;
#[cfg(test)]
mod reading;
#[cfg(test)]
mod stepping;
