//! Rules over variables: literals, sources of rules, and books of clauses and of groups.
#![tactic(auto)]

pub mod book;
pub mod clauses;
pub mod groups;
pub mod join;
pub mod literal;
pub mod refusal;
mod row_buffer;
pub mod source;
pub mod status;
#[cfg(test)]
mod tests;
