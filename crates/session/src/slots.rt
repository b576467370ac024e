//! Slots: a learned clause is written to the next empty one, and a stored clause is found and taken in hand.
ghost use Rattle.std.specs.Prelude.{◌≡◌, ◌+◌, ◌*◌, ◌<◌, ◌≤◌, true, All};
ghost use Rattle.rules.specs.Literals.{in_range};
ghost use Rattle.rules.specs.Clauses.{status};
ghost use Rattle.rules.specs.Sources.{Answer.silent};
ghost use Rattle.rules.specs.Values.{kind_of};
ghost use Rattle.theory.specs.Trail.{on};
ghost use Rattle.theory.specs.Conflict.{written};
ghost use Rattle.theory.proofs.Looking.{look_after};
ghost use Rattle.session.specs.Decode.{clause_of, slot_count, slot_of};
ghost use Rattle.session.specs.Memories.{trail_in, slots_in, position_in, clause_in, Keeps, Framed};
ghost use Rattle.session.specs.Learned.{learned_at, WithinCount};

use crate::clause::clause_status;
use crate::memory::Memory;
use rules::status::ClauseStatus;

impl Memory<'_> {
    /// Writes the clause of `k` words in hand to the next empty slot, if any, and nothing else.
    pub(crate) fn learn(&mut self, k: usize)
        requires few { k ≤ self.old.layout.variables }
        requires ranged { All (λ l. in_range self.old.layout.variables l ≡ true) (clause_in self.old k) }
        ensures position { position_in self.new ≡ record (position_in self.old) { slots = written self.old.layout.slots (slots_in self.old) (clause_in self.old k) } }
        ensures keeps { Keeps self.old self.new }
    {
        let layout = self.layout;
        let filled = self.extent.slots;
        if filled == layout.slots {
            return;
        }
        let clause = layout.clause(0);
        let words = &mut *self.words;
        words.copy_within(clause..clause + k, layout.slot(filled));
        words[layout.row(layout.variables + filled, 0)] = k as i32;
        self.extent.slots = filled + 1;
    }

    /// The first slot with a falsified clause, or else the first with a unit one.
    pub(crate) fn first_slot(&self) -> Option<usize>
        ensures first { learned_at self.now.layout.variables self.now.words.now result ≡ look_after silent (trail_in self.now) (slots_in self.now) }
        ensures within { WithinCount self.now.extent.slots result }
    {
        // Goes by the slots' numbers: a slot is a part of the words, and its number is what is answered. The books go over their rows
        // in the same way; one function over an iterator, with a closure for the status, would leave each of the proofs as it is, and add one.
        let mut unit = None;
        for s in 0..self.extent.slots {
            match self.slot_status(s) {
                ClauseStatus::Falsified => return Some(s),
                ClauseStatus::Unit => unit = unit.or(Some(s)),
                ClauseStatus::Other => {}
            }
        }
        unit
    }

    /// The status of the clause in a slot.
    fn slot_status(&self, slot: usize) -> ClauseStatus
        requires { slot < self.now.extent.slots }
        ensures { result ≡ kind_of (status (on (trail_in self.now)) (slot_of self.now.layout.variables self.now.words.now slot)) }
    {
        clause_status(self.slot(slot), self.values())
    }

    /// The clause in a slot.
    fn slot(&self, slot: usize) -> &[i32]
        requires { slot < self.now.extent.slots }
        ensures { result.now ≡ slot_of self.now.layout.variables self.now.words.now slot }
    {
        let start = self.layout.slot(slot);
        &self.words[start..start + self.slot_count(slot)]
    }

    /// Takes the clause of a slot in hand, and says how many literals it has.
    pub(crate) fn recall(&mut self, slot: usize) -> usize
        requires { slot < self.old.extent.slots }
        ensures clause { clause_of self.old.layout.variables result self.new.words.now ≡ slot_of self.old.layout.variables self.old.words.now slot }
        ensures few { result ≤ self.old.layout.variables }
        ensures frame { Framed (4 * self.old.layout.variables) self.old.layout.variables self.old self.new }
    {
        let count = self.slot_count(slot);
        let start = self.layout.slot(slot);
        let clause = self.layout.clause(0);
        self.words.copy_within(start..start + count, clause);
        count
    }

    /// How many literals the clause of a slot has.
    fn slot_count(&self, slot: usize) -> usize
        requires { slot < self.now.extent.slots }
        ensures is { result ≡ slot_count self.now.layout.variables self.now.words.now slot }
        ensures few { result ≤ self.now.layout.variables }
    {
        self.words[self.layout.row(self.layout.variables + slot, 0)].unsigned_abs() as usize
    }
}
