//! Reading a rule file within the limits of `decide`.
ghost use Rattle.std.specs.Prelude.{◌≡◌};
ghost use Rattle.rules.specs.ClauseFilling as clausebook;
ghost use Rattle.rules.specs.GroupFilling as groupbook;
ghost use Rattle.rulefile.specs.Faults.{named};
ghost use Rattle.rulefile.specs.Outcomes.{books};
ghost use Rattle.answer.specs.Reading.{program_fault, excess_number, reading_into, read_as};

use rulefile::books::read_rest;
use rulefile::faults::{Fault, Layer};
use rulefile::form::read_variables;
use rulefile::words::{Position, Reader};
use rules::clauses::ClauseBook;
use rules::groups::GroupBook;

/// The most bytes of a file.
pub const MOST_BYTES: usize = 65_536;

// A program reads by it, so it is more than a part of the function below.
const _: () = prove!(MOST_BYTES == 65_536);

/// The most variables of a file.
pub(crate) const MOST_VARIABLES: u32 = 64;

/// How many words the clauses and the groups of a file may take.
pub(crate) const CLAUSE_WORDS: usize = 8_192;

pub(crate) const GROUP_WORDS: usize = 2_048;

/// Why a file is refused that others may read: what is over a limit.
#[derive(Clone, Copy)]
enum Excess {
    /// The number of variables.
    Variables = 1,
    /// The number of bytes.
    Bytes = 14,
}

impl Excess {
    /// The fault of this kind at a position.
    fn at(self, at: Position) -> Fault
        ensures { named result ≡ program_fault (excess_number self) at }
    {
        Fault {
            number: self as u8,
            layer: Layer::Program,
            at,
        }
    }
}

/// Reads a file into the books, which it empties first.
// The two books by themselves, as the reader takes them.
pub(crate) fn read_rules(
    text: &[u8],
    clauses: &mut ClauseBook<'_>,
    groups: &mut GroupBook<'_>,
) -> Result<(), Fault>
    ensures { read_as result (books clauses.new groups.new) ≡ reading_into (clausebook.filling clauses.old).size (groupbook.filling groups.old).size text.now }
{
    if text.len() > MOST_BYTES {
        return Err(Excess::Bytes.at(Position { line: 0, place: 0 }));
    }
    let mut reader = Reader::new(text);
    let variables = read_variables(&mut reader)?;
    if variables.value > MOST_VARIABLES {
        return Err(Excess::Variables.at(variables.at));
    }
    read_rest(reader, variables.value, clauses, groups)?;
    Ok(())
}
