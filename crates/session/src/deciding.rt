//! What is placed where no clause asks for anything: the first assumption that is not true, or else a decision.
ghost use Rattle.std.specs.Prelude.{◌≡◌, true, [], ℤ, Some};
ghost use Rattle.theory.specs.Search.{missing};
ghost use Rattle.theory.specs.Trail.{free};
ghost use Rattle.theory.proofs.Looking.{Finds};
ghost use Rattle.session.specs.Decode.{assumptions_of};
ghost use Rattle.session.specs.Learned.{WithinCount};
ghost use Rattle.session.specs.Deciding.{assumption_at, Decides};
ghost use Rattle.session.specs.Memories.{trail_in};

use crate::memory::Memory;
use rules::literal::{Value, is_in_range};

impl Memory<'_> {
    /// The number, from 0, of the first assumption that is not true, if there is one.
    pub(crate) fn first_missing(&self) -> Option<usize>
        ensures first { Finds (missing (trail_in self.now)) (assumptions_of self.now.extent.assumptions self.now.words.now) (assumption_at self.now.words.now result) }
        ensures within { WithinCount self.now.extent.assumptions result }
    {
        (0..self.extent.assumptions).find(|number| self.assumption_value(*number) != Value::True)
    }

    /// Which literal is decided next: the first of the list whose variable is in range and unassigned, or else the lowest unassigned
    /// variable, made true; nothing where every variable has a value.
    pub(crate) fn next_decision(&self, preferences: &[i32]) -> Option<i32>
        ensures decides { Decides self.now.layout.variables (trail_in self.now) preferences.now result }
        ensures unassigned { (l : ℤ) → result ≡ Some l → free self.now.layout.variables (trail_in self.now) l ≡ true }
    {
        // No `or_else`: what it tells of its closure is that it was called, and `lowest_free` promises no equation to go on with.
        match self.first_free(preferences) {
            None => self.lowest_free(),
            preferred => preferred,
        }
    }

    /// The first literal of the list whose variable is in range and unassigned.
    fn first_free(&self, preferences: &[i32]) -> Option<i32>
        ensures { Finds (free self.now.layout.variables (trail_in self.now)) preferences.now result }
    {
        preferences
            .iter()
            .copied()
            .find(|literal| self.is_free(*literal))
    }

    /// Whether a literal's variable is in range and has no value.
    fn is_free(&self, literal: i32) -> bool
        ensures { result ≡ free self.now.layout.variables (trail_in self.now) literal }
    {
        is_in_range(literal, self.layout.variables as u32)
            && self.is_open(self.layout.index_of(literal))
    }

    /// The lowest unassigned variable, made true: what is decided where nothing is preferred.
    fn lowest_free(&self) -> Option<i32>
        ensures { Decides self.now.layout.variables (trail_in self.now) [] result }
    {
        let open = (0..self.layout.variables).find(|x| self.is_open(*x))?;
        Some(open as i32 + 1)
    }
}
