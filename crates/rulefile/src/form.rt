//! The form of a rule file: its head, and what rules are made of.
pub(crate) mod reading;

pub use crate::form::reading::read_variables;
use crate::words::Position;

/// A number of the text, and where it stands.
#[derive(Clone, Copy)]
pub struct Number<T> {
    pub value: T,
    pub at: Position,
}

/// What begins between rules.
#[derive(Clone, Copy)]
pub(crate) enum Start {
    /// A clause, with its first number.
    Clause(Number<i32>),
    /// A group, with the position of its `a`.
    Group(Position),
}
