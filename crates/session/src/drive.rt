//! The steps of a run, up to its limit.
ghost use Rattle.std.specs.Prelude.{◌≡◌, ◌≤◌, length, replicate};
ghost use Rattle.theory.specs.Run.{Goes};
ghost use Rattle.session.specs.Guides.{guided};
ghost use Rattle.session.specs.Memories.{position_in, Keeps};
ghost use Rattle.session.specs.Reports.{report_of};
ghost use Rattle.session.specs.Searches.{search_in};

use crate::guide::Guide;
use crate::progress::Progress;
use crate::report::{Report, Verdict};
use rules::source::Source;
use std::ops::ControlFlow;
use weights::weigher::Weigher;

impl Progress<'_> {
    /// Takes steps until the search ends or the limit is used up. All scratch bytes are 0 before and afterwards.
    pub(crate) fn drive<S: Source, W: Weigher>(
        &mut self,
        limit: u32,
        guide: &Guide<S, W>,
        scratch: &mut [u8],
    ) -> Report
        requires count { (S.meaning guide.now.source.now).count ≡ self.old.memory.layout.variables }
        requires room { self.old.memory.layout.variables ≤ length scratch.old }
        requires clear { scratch.old ≡ replicate (length scratch.old) 0 }
        ensures goes { Goes self.old.memory.layout.variables self.old.memory.layout.slots
            (guided (S.meaning guide.now.source.now) guide.now.preferences.now W.Weight.at_most W.Weight.zero W.Weight.plus (W.weight guide.now.weigher.now))
            limit (position_in self.old.memory) (report_of result) (search_in self.new) }
        ensures verdict { self.new.verdict ≡ result.verdict }
        ensures keeps { Keeps self.old.memory self.new.memory }
        ensures clear { scratch.new ≡ replicate (length scratch.old) 0 }
    {
        let mut report = Report::without_steps(Verdict::Paused);
        loop {
            match self.memory.next_plan(guide) {
                ControlFlow::Break(end) => {
                    self.conclude(end);
                    return report.ending_with(self.verdict);
                }
                ControlFlow::Continue(step) => {
                    if report.steps == limit {
                        self.verdict = Verdict::Paused;
                        return report.ending_with(Verdict::Paused);
                    }
                    report.count(self.memory.take(step, scratch));
                }
            }
        }
    }
}
