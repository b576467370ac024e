//! A settled session: its verdict, its values and what it names can be read.
ghost use Rattle.std.specs.Prelude.{◌≡◌};
ghost use Rattle.theory.specs.Calls.{Call.verdict as asking, Call.value as valuing, Call.named as naming, Call.reopen as reopening, Reply.done, Reply.found as finds};
ghost use Rattle.session.specs.Reports.{verdict_of, said_as};
ghost use Rattle.session.specs.Searches.{search_in, failed_is};
ghost use Rattle.session.specs.Sessions.{standing, idle_state, settled_state, Promised, value_answer, named_answer};

use crate::memory::Memory;
use crate::progress::Progress;
use crate::report::{Refusal, Verdict};
use crate::states::{Idle, Settled};
use rules::literal::is_in_range;

impl<'a> Settled<'a> {
    /// The verdict of the last granted run, or Open without one.
    pub fn verdict(&self) -> Verdict
        ensures answer { result ≡ self.now.progress.verdict }
        ensures promised { Promised self.now.progress.memory.layout.variables self.now.progress.memory.layout.slots (settled_state self.now) asking (finds (verdict_of result)) (settled_state self.now) }
    {
        self.progress.verdict
    }

    /// Whether a variable is true in the model.
    pub fn value(&self, variable: u32) -> Result<bool, Refusal>
        ensures answer { result ≡ value_answer self.now variable }
        ensures promised { Promised self.now.progress.memory.layout.variables self.now.progress.memory.layout.slots (settled_state self.now) (valuing variable) (said_as result) (settled_state self.now) }
    {
        if self.progress.verdict != Verdict::Model {
            return Err(Refusal::NoModel);
        }
        // By its number: a variable is no literal.
        if variable == 0 || variable as usize > self.progress.memory.layout.variables {
            return Err(Refusal::NoVariable);
        }
        Ok(self.progress.memory.is_true(variable as usize - 1))
    }

    /// Whether a literal is among the named assumptions.
    pub fn named(&self, literal: i32) -> Result<bool, Refusal>
        ensures answer { result ≡ named_answer self.now literal }
        ensures promised { Promised self.now.progress.memory.layout.variables self.now.progress.memory.layout.slots (settled_state self.now) (naming literal) (said_as result) (settled_state self.now) }
    {
        if self.progress.verdict != Verdict::Refuted {
            return Err(Refusal::NotRefuted);
        }
        if !is_in_range(literal, self.progress.memory.layout.variables as u32) {
            return Err(Refusal::NoVariable);
        }
        Ok(self.is_failed(literal) || self.progress.memory.is_marked_root(literal))
    }

    /// Opens the session again, with its assumptions.
    pub fn reopen(self) -> Idle<'a>
        ensures assumptions { standing result ≡ (search_in self.entry.progress).position.assumptions }
        ensures promised { Promised self.entry.progress.memory.layout.variables self.entry.progress.memory.layout.slots (settled_state self.entry) reopening done (idle_state result) }
        ensures layout { result.layout ≡ self.entry.progress.memory.layout }
        ensures words { result.words.now ≡ self.entry.progress.memory.words.now }
    {
        let Settled { progress } = self;
        let Progress {
            memory,
            verdict: _,
            failed: _,
        } = progress;
        let Memory {
            words,
            layout,
            extent,
        } = memory;
        Idle {
            words,
            layout,
            assumptions: extent.assumptions,
        }
    }

    /// Whether the literal is the assumption that was found false.
    fn is_failed(&self, literal: i32) -> bool
        ensures { result ≡ failed_is self.now.progress.memory.words.now self.now.progress.failed literal }
    {
        self.progress
            .failed
            .is_some_and(|number| literal == self.progress.memory.words[number])
    }
}
