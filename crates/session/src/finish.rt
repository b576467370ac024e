//! The end of a search: what is named is marked.
ghost use Rattle.std.specs.Prelude.{◌≡◌};
ghost use Rattle.session.specs.Memories.{position_in, Keeps};
ghost use Rattle.session.specs.Plans.{Conclusive, verdict_at, names_at};
ghost use Rattle.session.specs.Searches.{search_in};

use crate::plan::End;
use crate::progress::Progress;
use crate::report::Verdict;

impl Progress<'_> {
    /// Ends the search. Where it is refuted, the marks tell which assumed literals are named.
    pub(crate) fn conclude(&mut self, end: End)
        requires { Conclusive self.old.memory end }
        ensures search { search_in self.new ≡ record { position = position_in self.old.memory; verdict = verdict_at end; named = names_at self.old.memory end } }
        ensures keeps { Keeps self.old.memory self.new.memory }
    {
        self.failed = None;
        // A match, not a function value: the ends are three and closed, and two have their own data.
        match end {
            End::Complete => self.verdict = Verdict::Model,
            End::Contradicted(count) => {
                self.memory.mark_roots(count);
                self.verdict = Verdict::Refuted;
            }
            End::Denied(number) => {
                self.memory.recall_assumption(number);
                self.memory.mark_roots(1);
                self.verdict = Verdict::Refuted;
                self.failed = Some(number);
            }
        }
    }
}
