// Variation stores: what a store means, two stores over memory that the caller brings, and a layer over any store.
#![tactic(auto)]

pub mod flat;
pub mod laws;
pub mod lists;
pub mod places;
pub mod sharing;
pub mod store;
#[cfg(test)]
mod tests;
pub mod trim;
