//! What a sealed book of clauses tells.
ghost use Rattle.std.specs.Prelude.{◌≡◌};
ghost use Rattle.rules.specs.ClauseTelling.{sealed_clauses, row_answer};

use crate::clauses::SealedClauses;
use crate::literal::value_of;
use crate::source::{Source, tell, valuation};
use crate::status::ClauseStatus;

impl SealedClauses<'_> {
    /// The first falsified clause, or else the first unit one.
    fn first_asserting(&self, valuation: &[i32]) -> Option<&[i32]>
        ensures { row_answer result ≡ (sealed_clauses self.now).answer valuation.now }
    {
        // A rule of the project: this search is a nested loop over clauses and literals, left by its label.
        let mut found = None;
        'clauses: for row in self.words.split_inclusive(|word| *word == 0) {
            let clause = &row[..row.len() - 1];
            let mut status = ClauseStatus::Falsified;
            for literal in clause {
                status = status.with(value_of(*literal, valuation));
                if status == ClauseStatus::Other {
                    break;
                }
            }
            match status {
                ClauseStatus::Falsified => {
                    found = Some(clause);
                    break 'clauses;
                }
                ClauseStatus::Unit => found = found.or(Some(clause)),
                ClauseStatus::Other => {}
            }
        }
        found
    }
}

impl Source for SealedClauses<'_> {
    ghost meaning = { sealed_clauses };

    ghost lawful = { λ book. book.lawful };

    fn variables(&self) -> u32 {
        self.variables
    }

    fn question(&self, page: &mut [i32]) -> Option<usize> {
        let clause = self.first_asserting(valuation(page, self.variables))?;
        Some(tell(page, self.variables, clause))
    }
}
