//! The clause in hand, and how a clause stands under a valuation, literal by literal.
ghost use Rattle.std.specs.Prelude.{◌≡◌, ℕ, ◌*◌, ◌<◌, ◌≤◌, [], ◌∷◌, length, pos, ◌≢◌, slice_index_or};
ghost use Rattle.std.specs.Option.{MatchOption};
ghost use Rattle.rules.specs.Clauses.{status};
ghost use Rattle.rules.specs.Sources.{true_in};
ghost use Rattle.rules.specs.Values.{value_in, kind_of};
ghost use Rattle.rules.specs.declared.literal.Value.TheVariants.{Unassigned};
ghost use Rattle.session.specs.Words.{word_at};
ghost use Rattle.session.specs.Memories.{clause_in, Framed};

use crate::memory::Memory;
use rules::literal::{Value, value_of};
use rules::status::ClauseStatus;

impl Memory<'_> {
    /// The clause of `k` words in hand.
    // How many words it has is passed on, and is no part of the memory: a clause is in hand only from a look to the step or the end that
    // it leads to, and from an analysis to the learning, and every promise that what is in use stays would have to except its length.
    pub(crate) fn clause(&self, k: usize) -> &[i32]
        requires { k ≤ self.now.layout.variables }
        ensures { result.now ≡ clause_in self.now k }
    {
        let start = self.layout.clause(0);
        &self.words[start..start + k]
    }

    /// Takes the assumption of a number, from 0, in hand as a clause of one literal.
    pub(crate) fn recall_assumption(&mut self, number: usize)
        requires { number < self.old.extent.assumptions }
        ensures clause { clause_in self.new 1 ≡ word_at self.old.words.now number ∷ [] }
        ensures frame { Framed (4 * self.old.layout.variables) self.old.layout.variables self.old self.new }
    {
        self.words[self.layout.clause(0)] = self.words[number];
    }
}

/// The status of a clause.
// The clause book has the same loop: there it is, by a rule of the project, nested in the one over the clauses.
pub(crate) fn clause_status(clause: &[i32], values: &[i32]) -> ClauseStatus
    ensures { result ≡ kind_of (status (true_in values.now) clause.now) }
{
    let mut status = ClauseStatus::Falsified;
    for literal in clause {
        status = status.with(value_of(*literal, values));
        if status == ClauseStatus::Other {
            break;
        }
    }
    status
}

/// The number, from 0, of a clause's first unassigned literal, if it has one.
pub(crate) fn first_unassigned(clause: &[i32], values: &[i32]) -> Option<usize>
    ensures { MatchOption result ((i : ℕ) → i < length clause.now → value_in (true_in values.now) (slice_index_or clause.now i (pos 0)) ≢ Unassigned)
        (λ r. (r < length clause.now) × (value_in (true_in values.now) (slice_index_or clause.now r (pos 0)) ≡ Unassigned)
        × ((i : ℕ) → i < r → value_in (true_in values.now) (slice_index_or clause.now i (pos 0)) ≢ Unassigned)) }
{
    clause
        .iter()
        .position(|literal| value_of(*literal, values) == Value::Unassigned)
}
