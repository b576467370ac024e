//! What later runs are guided by besides their source: the preference list and the weigher.
ghost use Rattle.std.specs.Prelude.{◌≡◌, [], length, OnErr};
ghost use Rattle.theory.specs.Calls.{Call.run as running};
ghost use Rattle.session.specs.Reports.{reported_as, refusal_of};
ghost use Rattle.session.specs.Sessions.{search_state, Promised, run_refusal, scratch_after};
ghost use Rattle.replay.specs.Guides.{guide_of};
ghost use Rattle.replay.specs.declared.weighing.Weighing.TheVariants.{Standing};

use rules::source::Source;
use session::Search;
use session::report::{Refusal, Report};
use std::alloc::Global;
use weights::scales::{Plain, Ranked};
use weights::weighers::{ByStanding, Table};

/// How the members of a chunk are weighed.
#[derive(Drop)]
pub enum Weighing {
    Standing,
    Plain(Vec<Plain>),
    Ranked(Vec<Ranked>),
}

/// The preference list and the weigher of later runs.
#[derive(Drop)]
pub struct Guides {
    pub preferences: Vec<i32>,
    pub weighing: Weighing,
}

impl Guides {
    /// No preferences, and weights by standing.
    pub(crate) fn new(alloc: Global) -> Guides
        ensures preferences { result.preferences.items ≡ [] }
        ensures weighing { result.weighing ≡ Standing }
    {
        Guides {
            preferences: Vec::new(alloc),
            weighing: Weighing::Standing,
        }
    }

    /// Runs the search under these guides.
    pub(crate) fn run<S: Source>(
        &self,
        search: &mut Search,
        limit: u32,
        source: &S,
        scratch: &mut [u8],
    ) -> Result<Report, Refusal>
        ensures promised { Promised search.old.progress.memory.layout.variables search.old.progress.memory.layout.slots (search_state search.old)
            (running limit (guide_of self.now (S.meaning source.now)) (length scratch.old)) (reported_as result) (search_state search.new) }
        ensures refusal { refusal_of result ≡ run_refusal search.old.progress.memory.layout.variables (S.meaning source.now).count (length scratch.old) }
        ensures unchanged { OnErr result (search.new ≡ search.old) }
        ensures scratch { scratch.new ≡ scratch_after (run_refusal search.old.progress.memory.layout.variables (S.meaning source.now).count (length scratch.old)) scratch.old }
    {
        let preferences = self.preferences.as_slice();
        match &self.weighing {
            Weighing::Standing => search.run(limit, source, preferences, &ByStanding, scratch),
            Weighing::Plain(weights) => {
                search.run(limit, source, preferences, &Table::new(weights), scratch)
            }
            Weighing::Ranked(weights) => {
                search.run(limit, source, preferences, &Table::new(weights), scratch)
            }
        }
    }
}
