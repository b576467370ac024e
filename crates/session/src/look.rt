//! A look: which clause is falsified or unit, of the source or of the learned ones.
ghost use Rattle.std.specs.Prelude.{◌≡◌, ◌*◌, ◌≤◌, true};
ghost use Rattle.rules.specs.Sources.{Answer.silent};
ghost use Rattle.rules.proofs.Lists.{asserts};
ghost use Rattle.theory.specs.Trail.{on, valuation};
ghost use Rattle.theory.proofs.Looking.{look_after};
ghost use Rattle.session.specs.InHand.{InRange};
ghost use Rattle.session.specs.Finding.{taken_clause, TakenWhole, StandsSo, found_clause, FoundSo};
ghost use Rattle.session.specs.Memories.{trail_in, slots_in, clause_in, Framed};

use crate::clause::first_unassigned;
use crate::memory::Memory;
use rules::source::Source;

/// How a found clause stands: all its literals are false, or all but the one of this number, from 0, whose variable is unassigned.
// No Option: the two cases are the statuses that the rules speak of, and `Falsified` says more than `None`.
#[derive(Clone, Copy, PartialEq, Eq, Debug)]
pub(crate) enum Assertion {
    Falsified,
    Unit(usize),
}

/// A found clause: how many literals of it are in hand, and how it stands.
#[derive(Clone, Copy, PartialEq, Eq, Debug)]
pub(crate) struct Found {
    pub count: usize,
    pub assertion: Assertion,
}

impl Memory<'_> {
    /// Looks for a falsified or unit clause: the source's, or, where that is silent, the first falsified slot's, or else the
    /// first unit slot's. The found clause is then in hand.
    pub(crate) fn look<S: Source>(&mut self, source: &S) -> Option<Found>
        requires { (S.meaning source.now).count ≡ self.old.layout.variables }
        ensures found { found_clause self.old.layout.variables self.new.words.now result
            ≡ look_after ((S.meaning source.now).answer (valuation self.old.layout.variables (trail_in self.old))) (trail_in self.old) (slots_in self.old) }
        ensures stands { FoundSo self.old.layout.variables (trail_in self.old) self.new.words.now result }
        ensures frame { Framed (4 * self.old.layout.variables) self.old.layout.variables self.old self.new }
    {
        let count = self.find(source)?;
        let assertion = self.assertion_of(count);
        Some(Found { count, assertion })
    }

    /// Takes the clause of a look in hand: the source's, or, where that is silent, a slot's. Says how many literals it has.
    fn find<S: Source>(&mut self, source: &S) -> Option<usize>
        requires { (S.meaning source.now).count ≡ self.old.layout.variables }
        ensures clause { taken_clause self.old.layout.variables self.new.words.now result
            ≡ look_after ((S.meaning source.now).answer (valuation self.old.layout.variables (trail_in self.old))) (trail_in self.old) (slots_in self.old) }
        ensures whole { TakenWhole self.old.layout.variables self.new.words.now result }
        ensures frame { Framed (4 * self.old.layout.variables) self.old.layout.variables self.old self.new }
    {
        // No `or_else`: the proof does not follow words that a closure changes.
        match self.ask(source) {
            None => self.recall_first(),
            told => told,
        }
    }

    /// Takes the first falsified slot's clause in hand, or else the first unit one's, and says how many literals it has.
    fn recall_first(&mut self) -> Option<usize>
        ensures clause { taken_clause self.old.layout.variables self.new.words.now result ≡ look_after silent (trail_in self.old) (slots_in self.old) }
        ensures whole { TakenWhole self.old.layout.variables self.new.words.now result }
        ensures frame { Framed (4 * self.old.layout.variables) self.old.layout.variables self.old self.new }
    {
        let slot = self.first_slot()?;
        Some(self.recall(slot))
    }

    /// How the clause of `count` literals in hand stands, which is falsified or unit.
    fn assertion_of(&self, count: usize) -> Assertion
        requires few { count ≤ self.now.layout.variables }
        requires ranged { InRange self.now.layout.variables self.now.words.now count }
        requires asserting { asserts (on (trail_in self.now)) (clause_in self.now count) ≡ true }
        ensures { StandsSo self.now.layout.variables (trail_in self.now) self.now.words.now count result }
    {
        // A match, since the proof goes by its two cases.
        match first_unassigned(self.clause(count), self.values()) {
            Some(open) => Assertion::Unit(open),
            None => Assertion::Falsified,
        }
    }
}
