// The state of an open lookup, over memory that the caller brings.
#![tactic(auto)]

pub mod delta;
pub mod entries;
pub mod exact;
pub mod faults;
pub mod interner;
pub mod rising;
pub mod span;
#[cfg(test)]
mod tests;
