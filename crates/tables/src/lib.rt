// Pairs in key order over memory that the caller brings.
#![tactic(auto)]

pub mod table;
#[cfg(test)]
mod tests;
