//! A source of one's own: one literal that has to be true.
ghost use Rattle.std.specs.Prelude.{◌≡◌, Some, None, option_map, if◌then◌else◌};
ghost use Rattle.rules.specs.Literals.{in_range};
ghost use Rattle.rules.specs.Drafts.{book_count};
ghost use Rattle.rules.specs.Sources.{Lawful};
ghost use Rattle.rules.specs.SourceLaws.{lawful_prop};
ghost use Rattle.pinned.specs.Pinning.{pinned};

use rules::literal::{Value, book_count, is_in_range, value_of};
use rules::source::{Source, tell, valuation};

/// A literal that has to be true. It is silent where it is, and else it tells the clause of that one literal.
#[derive(Clone, Copy)]
pub struct Pinned {
    variables: u32,
    literal: i32,
    ghost lawful: { Lawful (pinned variables literal) } by { lawful_prop (pinned variables literal) },
}

impl Pinned {
    /// A literal of so many variables, of which more than 1,000 count as none; nothing where it is 0 or its variable is not one
    /// of theirs.
    #[tactic(auto, using(crate::proofs::PinnedLaws::pinned_lawful))]
    pub fn new(variables: u32, literal: i32) -> Option<Pinned>
        ensures { option_map (λ it. pinned it.variables it.literal) result
            ≡ (if in_range (book_count variables) literal then Some (pinned (book_count variables) literal) else None) }
    {
        let variables = book_count(variables);
        if is_in_range(literal, variables) {
            Some(Pinned { variables, literal })
        } else {
            None
        }
    }
}

impl Source for Pinned {
    ghost meaning = { λ it. pinned it.variables it.literal };

    ghost lawful = { λ it. it.lawful };

    fn variables(&self) -> u32 {
        self.variables
    }

    fn question(&self, page: &mut [i32]) -> Option<usize> {
        match value_of(self.literal, valuation(page, self.variables)) {
            Value::True => None,
            Value::False | Value::Unassigned => Some(tell(page, self.variables, &[self.literal])),
        }
    }
}
