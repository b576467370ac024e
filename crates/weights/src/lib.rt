//! Weights: how they compare and add, how the first least is chosen, and how the members of a chunk are weighed.
#![tactic(auto)]

pub mod chooser;
pub mod order;
pub mod scales;
#[cfg(test)]
mod tests;
pub mod weigher;
pub mod weighers;
