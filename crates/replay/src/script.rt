//! What a line of a script can say: a call, or why it is none.
ghost use Rattle.std.specs.Prelude.{◌≡◌};
ghost use Rattle.replay.specs.Choices.{choice_answer};

use crate::weighing::Weighing;
use std::fmt;

/// What is lent to a book or a session, and for how many variables.
///
/// `words` is nothing where the script lends fewer than none, which suffices for nothing.
#[derive(Clone, Copy)]
pub struct Lending {
    pub words: Option<usize>,
    pub variables: u32,
}

/// The sealed books that runs are to question.
#[derive(Clone, Copy)]
pub enum Choice {
    Clauses,
    Groups,
    ClausesFirst,
    GroupsFirst,
}

impl Choice {
    /// Whether the books of this choice stand.
    pub(crate) fn check(self, has_clauses: bool, has_groups: bool) -> Result<(), Mistake>
        ensures { result ≡ choice_answer self has_clauses has_groups }
    {
        let needs_clauses = !matches!(self, Choice::Groups);
        let needs_groups = !matches!(self, Choice::Clauses);
        if needs_clauses && !has_clauses {
            Err(Mistake::NoClauseBook)
        } else if needs_groups && !has_groups {
            Err(Mistake::NoGroupBook)
        } else {
            Ok(())
        }
    }
}

/// A call, as a line says it.
#[derive(Drop)]
pub enum Call {
    ClauseBook { lending: Lending },
    Clause { literals: Vec<i32> },
    GroupBook { lending: Lending },
    Group { limit: u32, literals: Vec<i32> },
    Source { choice: Choice },
    Fits { lending: Lending, slots: u32 },
    Open { lending: Lending, slots: u32 },
    Assume { literal: i32 },
    Clear,
    Begin,
    Prefer { literals: Vec<i32> },
    Weigh { weighing: Weighing },
    Run { limit: u32, scratch: usize },
    Settle,
    Value { variable: u32 },
    Named { literal: i32 },
    Reopen,
    Close,
}

/// Why a line plays nothing.
#[derive(Clone, Copy, Debug)]
pub enum Mistake {
    /// It is not UTF-8.
    NotText,
    /// Its first word is the name of no call.
    UnknownCall,
    UnknownSource,
    UnknownWeigher,
    MissingWord,
    ExtraWord,
    NoNumber,
    OutOfRange,
    /// More words or bytes than are lent.
    TooMuch,
    /// A ranked weight has only its first part.
    HalfWeight,
    /// The call needs a book that does not stand.
    NoClauseBook,
    NoGroupBook,
    /// Only one book of a kind stands at a time.
    SecondClauseBook,
    SecondGroupBook,
    /// The state takes no such call before another.
    NoSource,
    SealedBooks,
    NoSession,
    NoSearch,
    OpenSession,
    Unsettled,
    Settled,
}

impl fmt::Display for Mistake {
    fn fmt<W: fmt::Write>(&self, f: &mut fmt::Formatter<W>) -> fmt::Result {
        f.write_str(match self {
            Mistake::NotText => "not UTF-8",
            Mistake::UnknownCall => "unknown call",
            Mistake::UnknownSource => "unknown source",
            Mistake::UnknownWeigher => "unknown weigher",
            Mistake::MissingWord => "a word is missing",
            Mistake::ExtraWord => "a word too many",
            Mistake::NoNumber => "not a number",
            Mistake::OutOfRange => "number out of range",
            Mistake::TooMuch => "at most 16777216 are lent",
            Mistake::HalfWeight => "a ranked weight is two numbers",
            Mistake::NoClauseBook => "no clause book stands",
            Mistake::NoGroupBook => "no group book stands",
            Mistake::SecondClauseBook => "a clause book stands already",
            Mistake::SecondGroupBook => "a group book stands already",
            Mistake::NoSource => "choose a source first",
            Mistake::SealedBooks => "the books are sealed",
            Mistake::NoSession => "open a session first",
            Mistake::NoSearch => "begin a search first",
            Mistake::OpenSession => "close the session first",
            Mistake::Unsettled => "settle the search first",
            Mistake::Settled => "reopen the session first",
        })
    }
}
