//! How a clause stands under a valuation.
ghost use Rattle.std.specs.Prelude.{◌≡◌};
ghost use Rattle.rules.specs.Values.{with_value};

use crate::literal::Value;

/// A clause is falsified when all its literals are false, and unit when all are but one, whose variable is unassigned.
#[derive(Clone, Copy, PartialEq, Eq, Debug)]
pub enum ClauseStatus {
    Falsified,
    Unit,
    Other,
}

impl ClauseStatus {
    /// The status of the clause with one literal more, of that value.
    pub fn with(self, value: Value) -> ClauseStatus
        ensures { result ≡ with_value self value }
    {
        match (self, value) {
            (status, Value::False) => status,
            (ClauseStatus::Falsified, Value::Unassigned) => ClauseStatus::Unit,
            (_, Value::Unassigned) | (_, Value::True) => ClauseStatus::Other,
        }
    }
}
