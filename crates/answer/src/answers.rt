//! Answers, and how they print.
ghost use Rattle.std.specs.Prelude.{Some};
ghost use Rattle.session.specs.Reports.{report_of};
ghost use Rattle.answer.specs.Lines.{counts_text};
ghost use Rattle.answer.specs.Answers.{answer_text};

use crate::model::Model;
use rulefile::faults::Fault;
use session::report::Report;
use std::fmt;

/// What a rule file comes to.
#[derive(Clone, Copy)]
pub enum Answer {
    /// The file is refused.
    Refused(Fault),
    /// The values of the model obey all rules.
    Satisfiable { model: Model, counts: Counts },
    /// No values obey all rules.
    Unsatisfiable { counts: Counts },
    /// The search has not ended within its steps.
    Unknown { counts: Counts },
}

/// Prints the lines of an answer.
impl fmt::Display for Answer {
    ghost output = { λ answer. Some (answer_text answer) };

    fn fmt<W: fmt::Write>(&self, f: &mut fmt::Formatter<W>) -> fmt::Result {
        match self {
            Answer::Refused(fault) => writeln!(f, "refused {fault}"),
            Answer::Satisfiable { model, counts } => {
                writeln!(f, "s SATISFIABLE")?;
                writeln!(f, "{model}")?;
                writeln!(f, "{counts}")
            }
            Answer::Unsatisfiable { counts } => writeln!(f, "s UNSATISFIABLE\n{counts}"),
            Answer::Unknown { counts } => writeln!(f, "s UNKNOWN\n{counts}"),
        }
    }
}

/// The report of a run, of which its counts can be printed.
// No more of it can be seen: what is printed is all that is promised.
#[derive(Clone, Copy)]
pub struct Counts(pub(crate) Report);

impl fmt::Display for Counts {
    ghost output = { λ counts. Some (counts_text (report_of counts.0)) };

    fn fmt<W: fmt::Write>(&self, f: &mut fmt::Formatter<W>) -> fmt::Result {
        let Report {
            verdict: _,
            steps,
            assumed,
            decided,
            implied,
            conflicts,
            undone,
        } = self.0;
        write!(
            f,
            "c steps {steps} assumed {assumed} decided {decided} implied {implied} conflicts {conflicts} undone {undone}"
        )
    }
}
