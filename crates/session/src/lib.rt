//! The calls of a session, the words that it lives in, and what a search does on them: look, choice, weighing, analysis, undoing,
//! placing and learning.
//!
//! Public are the states of a session with their calls, and what these answer. A search works on a `Memory`, whose words stand for a
//! position; no public call asks anything of its caller.
#![tactic(auto)]

mod analysis;
mod ask;
mod choose;
mod clause;
mod deciding;
mod drive;
mod finish;
mod guide;
mod idle;
mod layout;
mod look;
mod marks;
mod memory;
mod naming;
mod plan;
mod progress;
mod reasons;
mod repair;
pub mod report;
mod search;
mod settled;
mod slots;
mod states;
mod step;
mod trail;
mod undo;
mod values;
mod weigh;

pub use idle::fits;
pub use states::{Idle, Search, Settled};
