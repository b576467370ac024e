//! Models.
ghost use Rattle.std.specs.Prelude.{◌≤◌, Some, take};
ghost use Rattle.answer.specs.Lines.{values_text};

use crate::reading::MOST_VARIABLES;
use std::fmt;

/// The most variables, as places in a row.
pub(crate) const MOST_VALUES: usize = MOST_VARIABLES as usize;

/// For each variable, its literal that is true.
#[derive(Clone, Copy)]
pub struct Model {
    pub(crate) literals: [i32; MOST_VALUES],
    pub(crate) count: usize,
    ghost few: { count ≤ 64 },
}

/// Prints the literals, and 0 behind them.
impl fmt::Display for Model {
    ghost output = { λ model. Some (values_text (take model.count model.literals)) };

    fn fmt<W: fmt::Write>(&self, f: &mut fmt::Formatter<W>) -> fmt::Result {
        write!(f, "v")?;
        for literal in &self.literals[..self.count] {
            write!(f, " {literal}")?;
        }
        write!(f, " 0")
    }
}
