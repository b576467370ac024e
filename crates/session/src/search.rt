//! A search under way: it runs in as many pieces as wanted, and is settled to be read.
ghost use Rattle.std.specs.Prelude.{◌≡◌, length, OnErr};
ghost use Rattle.theory.specs.Calls.{Call.run as running, Call.settle as settling, Reply.done};
ghost use Rattle.session.specs.Guides.{guided};
ghost use Rattle.session.specs.Memories.{Keeps};
ghost use Rattle.session.specs.Reports.{reported_as, refusal_of};
ghost use Rattle.session.specs.Sessions.{search_state, settled_state, Promised, run_refusal, scratch_after};

use crate::guide::Guide;
use crate::report::{Refusal, Report};
use crate::states::{Search, Settled};
use rules::source::Source;
use weights::weigher::Weigher;

impl<'a> Search<'a> {
    /// Runs the search for at most so many steps. A refused call changes nothing.
    // Its three guides are the caller's, and are one struct from here on: a public one would only be made to be taken apart.
    pub fn run<S: Source, W: Weigher>(
        &mut self,
        limit: u32,
        source: &S,
        preferences: &[i32],
        weigher: &W,
        scratch: &mut [u8],
    ) -> Result<Report, Refusal>
        ensures promised { Promised self.old.progress.memory.layout.variables self.old.progress.memory.layout.slots (search_state self.old)
            (running limit (guided (S.meaning source.now) preferences.now W.Weight.at_most W.Weight.zero W.Weight.plus (W.weight weigher.now)) (length scratch.old))
            (reported_as result) (search_state self.new) }
        ensures refusal { refusal_of result ≡ run_refusal self.old.progress.memory.layout.variables (S.meaning source.now).count (length scratch.old) }
        ensures unchanged { OnErr result (self.new ≡ self.old) }
        ensures scratch { scratch.new ≡ scratch_after (run_refusal self.old.progress.memory.layout.variables (S.meaning source.now).count (length scratch.old)) scratch.old }
        ensures keeps { Keeps self.old.progress.memory self.new.progress.memory }
    {
        if source.variables() as usize != self.progress.memory.layout.variables {
            return Err(Refusal::OtherCount);
        }
        if scratch.len() < self.progress.memory.layout.variables {
            return Err(Refusal::ShortScratch);
        }
        scratch.fill(0);
        if self.progress.verdict.has_ended() {
            return Ok(Report::without_steps(self.progress.verdict));
        }
        let guide = Guide {
            source,
            preferences,
            weigher,
        };
        Ok(self.progress.drive(limit, &guide, scratch))
    }

    /// Settles the search.
    pub fn settle(self) -> Settled<'a>
        ensures progress { result.progress ≡ self.entry.progress }
        ensures promised { Promised self.entry.progress.memory.layout.variables self.entry.progress.memory.layout.slots (search_state self.entry) settling done (settled_state result) }
    {
        let Search { progress } = self;
        Settled { progress }
    }
}
