//! What calls of a session answer: verdicts, reports and refusals.
ghost use Rattle.std.specs.Prelude.{◌≡◌, ◌+◌, ◌*◌, ◌<◌, ◌≤◌};
ghost use Rattle.theory.specs.Run.{no_steps, one_step, added};
ghost use Rattle.session.specs.Reports.{verdict_of, verdict_number, has_ended, refusal_number, kind_of, undone_by, report_of, Sized};
ghost use Rattle.session.specs.declared.report.Verdict.TheVariants as verdict;

/// What a search has come to.
#[derive(Clone, Copy, PartialEq, Eq, Debug)]
pub enum Verdict {
    /// No run was granted yet.
    Open,
    /// The limit of the latest granted run was used up.
    Paused,
    /// The trail's assignment is admitted and makes all assumptions true.
    Model,
    /// No admitted assignment makes all assumptions true.
    Refuted,
}

impl Verdict {
    /// The number by which a report's verdict is known. Open, which no report gives, has none.
    pub fn number(self) -> Option<u8>
        ensures { result ≡ verdict_number self }
    {
        match self {
            Verdict::Open => None,
            Verdict::Paused => Some(0),
            Verdict::Model => Some(1),
            Verdict::Refuted => Some(2),
        }
    }

    /// Whether a search with this verdict has ended.
    pub fn has_ended(self) -> bool
        ensures { result ≡ has_ended self }
    {
        matches!(self, Verdict::Model | Verdict::Refuted)
    }
}

/// A refusal, with its number. A refused call leaves the session and every buffer as they were.
#[derive(Clone, Copy, PartialEq, Eq, Debug)]
pub enum Refusal {
    /// More than 1,000 variables or slots, or too few words.
    Unfit = 1,
    /// A literal is 0, or its variable is not one of 1 to n.
    NoVariable = 2,
    /// 2n assumptions stand already.
    Full = 3,
    /// The source has another number of variables.
    OtherCount = 4,
    /// The scratch has fewer than n bytes.
    ShortScratch = 5,
    /// The verdict is not Model.
    NoModel = 6,
    /// The verdict is not Refuted.
    NotRefuted = 7,
}

impl From<Refusal> for u8 {
    ghost from_gives = { λ refusal number. number ≡ refusal_number refusal };

    /// The number by which a refusal is known.
    fn from(refusal: Refusal) -> u8 {
        refusal as u8
    }
}

/// The kinds of a step. A conflict's says how many literals it undid.
#[derive(Clone, Copy)]
pub(crate) enum Kind {
    Assumed,
    Decided,
    Implied,
    Conflict { undone: usize },
}

/// What a granted run did: its verdict, its steps in all and by kind, and how many literals its conflict steps undid.
#[derive(Clone, Copy, PartialEq, Eq, Debug)]
pub struct Report {
    pub verdict: Verdict,
    pub steps: u32,
    pub assumed: u32,
    pub decided: u32,
    pub implied: u32,
    pub conflicts: u32,
    pub undone: u64,
}

impl Report {
    /// No steps, and this verdict.
    pub(crate) fn without_steps(verdict: Verdict) -> Report
        ensures report { report_of result ≡ no_steps (verdict_of verdict) }
        ensures sized { Sized result }
    {
        Report {
            verdict,
            steps: 0,
            assumed: 0,
            decided: 0,
            implied: 0,
            conflicts: 0,
            undone: 0,
        }
    }

    /// The same steps with this verdict.
    pub(crate) fn ending_with(self, verdict: Verdict) -> Report
        ensures report { report_of result ≡ added (report_of self) (no_steps (verdict_of verdict)) }
        ensures verdict { result.verdict ≡ verdict }
    {
        Report { verdict, ..self }
    }

    /// Counts one step more, of this kind.
    pub(crate) fn count(&mut self, kind: Kind)
        requires sized { Sized self.old }
        requires room { self.old.steps < 4294967295 }
        requires few { undone_by kind ≤ 1000 }
        ensures report { report_of self.new ≡ added (report_of self.old) (one_step (kind_of kind) (undone_by kind)) }
        ensures sized { Sized self.new }
        ensures steps { self.new.steps ≡ self.old.steps + 1 }
    {
        self.verdict = Verdict::Paused;
        self.steps += 1;
        // A match, not a table of functions: the kinds are four and closed, and one carries a number.
        match kind {
            Kind::Assumed => self.assumed += 1,
            Kind::Decided => self.decided += 1,
            Kind::Implied => self.implied += 1,
            Kind::Conflict { undone } => {
                self.conflicts += 1;
                self.undone += undone as u64;
            }
        }
    }
}
