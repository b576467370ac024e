//! Which chunk a conflict undoes: the lightest of those that are allowed.
ghost use Rattle.std.specs.Prelude.{◌≡◌, ◌*◌, ◌<◌, Bool, true, take, ℤ};
ghost use Rattle.theory.specs.Chunks.{in_chunk, touches};
ghost use Rattle.theory.proofs.Choice.{touched_decisions, lighter, first_least, choice, Chooses};
ghost use Rattle.session.specs.Decode.{literal_at, entry_at, Marked};
ghost use Rattle.session.specs.Candidates.{by_total, is_touched, decision_at, PlaceWithin, PlaceMarked};
ghost use Rattle.session.specs.Memories.{trail_in, position_in, clause_in, FalsifiedInHand, Framed};

use crate::memory::Memory;
use weights::chooser::{Candidate, Chooser};
use weights::weigher::{Standing, Weigher};

// That the clause in hand is falsified is asked of the memory, and the number of its literals is passed on. A struct that lends the
// memory for a conflict was tried: it is proved, but each of its functions has to promise besides that it lends the very same
// memory, and that the number stays.
impl Memory<'_> {
    /// The place of the decision whose chunk is to be undone, if the falsified clause of `k` literals in hand touches the chunk of one:
    /// while a slot is empty the lightest of these, the latest of equal ones; otherwise the latest. Its chunk is then marked.
    pub(crate) fn choose<W: Weigher>(&mut self, weigher: &W, k: usize) -> Option<usize>
        requires { FalsifiedInHand self.old k }
        ensures chosen { decision_at self.old.layout.variables self.old.words.now result ≡ choice self.old.layout.slots (by_total W.Weight.at_most W.Weight.zero W.Weight.plus (W.weight weigher.now)) (position_in self.old) (clause_in self.old k) }
        ensures rule { Chooses self.old.layout.slots (by_total W.Weight.at_most W.Weight.zero W.Weight.plus (W.weight weigher.now)) (position_in self.old) (clause_in self.old k) (decision_at self.old.layout.variables self.old.words.now result) }
        ensures marked { PlaceMarked self.old.layout.variables self.old.extent.trail self.old.words.now self.new.words.now result }
        ensures frame { Framed (5 * self.old.layout.variables) self.old.layout.variables self.old self.new }
    {
        if self.extent.slots >= self.layout.slots {
            return self.latest(k);
        }
        let place = self.lightest(weigher, k)?;
        self.mark_chunk(place);
        Some(place)
    }

    /// The place of the latest decision whose chunk the falsified clause of `k` literals in hand touches, if there is one.
    /// Its chunk is then marked.
    fn latest(&mut self, k: usize) -> Option<usize>
        requires { FalsifiedInHand self.old k }
        ensures chosen { (le : ℤ → ℤ → Bool) → decision_at self.old.layout.variables self.old.words.now result ≡ first_least le (take 1 (touched_decisions (trail_in self.old) (clause_in self.old k))) }
        ensures marked { PlaceMarked self.old.layout.variables self.old.extent.trail self.old.words.now self.new.words.now result }
        ensures frame { Framed (5 * self.old.layout.variables) self.old.layout.variables self.old self.new }
    {
        // Not by `find`: each look at a place changes the marks.
        for place in (0..self.extent.trail).rev() {
            if self.touched_at(place, k) {
                return Some(place);
            }
        }
        None
    }

    /// The place of the decision with the lightest chunk of those that the falsified clause of `k` literals in hand touches, the
    /// latest of equal ones, if there is one.
    fn lightest<W: Weigher>(&mut self, weigher: &W, k: usize) -> Option<usize>
        requires { FalsifiedInHand self.old k }
        ensures chosen { decision_at self.old.layout.variables self.old.words.now result
            ≡ first_least (lighter (by_total W.Weight.at_most W.Weight.zero W.Weight.plus (W.weight weigher.now)) (trail_in self.old)) (touched_decisions (trail_in self.old) (clause_in self.old k)) }
        ensures within { PlaceWithin self.old.extent.trail result }
        ensures frame { Framed (5 * self.old.layout.variables) self.old.layout.variables self.old self.new }
    {
        // Not by `fold`: each look at a place changes the marks.
        let mut chooser: Chooser<W::Weight> = Chooser::new();
        for place in (0..self.extent.trail).rev() {
            if self.touched_at(place, k) {
                let weight = self.weigh_marked(weigher);
                chooser.offer(Candidate { place, weight });
            }
        }
        chooser.chosen().map(|candidate| candidate.place)
    }

    /// Whether the literal at a place is decided and the falsified clause of `k` literals in hand touches its chunk, which is then marked.
    fn touched_at(&mut self, place: usize, k: usize) -> bool
        requires within { place < self.old.extent.trail }
        requires falsified { FalsifiedInHand self.old k }
        ensures is { result ≡ is_touched (trail_in self.old) (clause_in self.old k) (entry_at self.old.layout.variables self.old.words.now place) }
        ensures marked { result ≡ true → Marked self.old.layout.variables (trail_in self.old) (in_chunk (literal_at self.old.layout.variables self.old.words.now place) (trail_in self.old)) self.new.words.now }
        ensures frame { Framed (5 * self.old.layout.variables) self.old.layout.variables self.old self.new }
    {
        self.standing_at(place) == Standing::Decided && self.mark_touched(place, k)
    }

    /// Marks the chunk of the literal at the place `root`, and says whether the falsified clause of `k` words in hand touches it.
    fn mark_touched(&mut self, root: usize, k: usize) -> bool
        requires rooted { root < self.old.extent.trail }
        requires falsified { FalsifiedInHand self.old k }
        ensures touches { result ≡ touches (trail_in self.old) (literal_at self.old.layout.variables self.old.words.now root) (clause_in self.old k) }
        ensures marked { Marked self.old.layout.variables (trail_in self.old) (in_chunk (literal_at self.old.layout.variables self.old.words.now root) (trail_in self.old)) self.new.words.now }
        ensures frame { Framed (5 * self.old.layout.variables) self.old.layout.variables self.old self.new }
    {
        self.mark_chunk(root);
        self.any_marked(self.clause(k))
    }
}
