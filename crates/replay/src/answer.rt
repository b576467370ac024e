//! What a call answers, as it is printed.
use session::report::{self, Report, Verdict};
use std::fmt;

/// An answer to a call.
#[derive(Clone, Copy)]
pub enum Answer {
    Done,
    /// A refusal, by its number.
    Refused(u8),
    Told(bool),
    Reported(Report),
    Settled(Verdict),
}

impl From<()> for Answer {
    fn from(_done: ()) -> Answer {
        Answer::Done
    }
}

impl From<bool> for Answer {
    fn from(told: bool) -> Answer {
        Answer::Told(told)
    }
}

impl From<Report> for Answer {
    fn from(report: Report) -> Answer {
        Answer::Reported(report)
    }
}

impl From<report::Refusal> for Answer {
    fn from(refusal: report::Refusal) -> Answer {
        Answer::Refused(u8::from(refusal))
    }
}

impl From<rules::refusal::Refusal> for Answer {
    fn from(refusal: rules::refusal::Refusal) -> Answer {
        Answer::Refused(u8::from(refusal))
    }
}

/// What came of a call that can be refused.
impl<T: Into<Answer>, E: Into<Answer>> From<Result<T, E>> for Answer {
    fn from(outcome: Result<T, E>) -> Answer {
        match outcome {
            Ok(value) => value.into(),
            Err(refusal) => refusal.into(),
        }
    }
}

impl fmt::Display for Answer {
    fn fmt<W: fmt::Write>(&self, f: &mut fmt::Formatter<W>) -> fmt::Result {
        match self {
            Answer::Done => write!(f, "ok"),
            Answer::Refused(number) => write!(f, "refused {number}"),
            Answer::Told(told) => write!(f, "{told}"),
            Answer::Reported(report) => write_report(report, f),
            Answer::Settled(verdict) => write!(f, "settled {}", word_of(*verdict)),
        }
    }
}

fn write_report<W: fmt::Write>(report: &Report, f: &mut fmt::Formatter<W>) -> fmt::Result {
    let Report {
        verdict,
        steps,
        assumed,
        decided,
        implied,
        conflicts,
        undone,
    } = *report;
    // Open, which has no number, is the verdict of no report.
    let verdict = verdict.number().unwrap_or(0);
    write!(
        f,
        "report {verdict} {steps} {assumed} {decided} {implied} {conflicts} {undone}"
    )
}

fn word_of(verdict: Verdict) -> &'static str {
    match verdict {
        Verdict::Open => "open",
        Verdict::Paused => "paused",
        Verdict::Model => "model",
        Verdict::Refuted => "refuted",
    }
}
