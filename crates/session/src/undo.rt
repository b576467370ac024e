//! Undoing: the marked literals are taken off the trail.
ghost use Rattle.std.specs.Prelude.{◌≡◌, ◌+◌, ◌*◌};
ghost use Rattle.theory.specs.Trail.{WellFormed};
ghost use Rattle.session.specs.Words.{Outside};
ghost use Rattle.session.specs.Decode.{unmarked};
ghost use Rattle.session.specs.Memories.{trail_in, position_in, Keeps};

use crate::layout::is_mark;
use crate::memory::Memory;

impl Memory<'_> {
    /// Takes the marked literals off the trail, where what is left is well formed, and says how many these were.
    /// The others keep their order, and no reason changes.
    pub(crate) fn undo_marked(&mut self) -> usize
        requires { WellFormed self.old.layout.variables (unmarked self.old.layout.variables self.old.words.now (trail_in self.old)) }
        ensures position { position_in self.new ≡ record (position_in self.old) { trail = unmarked self.old.layout.variables self.old.words.now (trail_in self.old) } }
        ensures undone { result + self.new.extent.trail ≡ self.old.extent.trail }
        ensures outside { Outside (2 * self.old.layout.variables) (2 * self.old.layout.variables) self.old.words.now self.new.words.now }
        ensures keeps { Keeps self.old self.new }
    {
        let layout = self.layout;
        let len = self.extent.trail;
        let words = &mut *self.words;
        // A slice has no `retain`: each literal that stays moves forward to the place `left`.
        let mut left: usize = 0;
        for place in 0..len {
            let literal = words[layout.trail(place)];
            let x = layout.index_of(literal);
            let mark = words[layout.mark(x)];
            if is_mark(mark) {
                words[layout.value(x)] = 0;
            } else {
                words[layout.trail(left)] = literal;
                left += 1;
            }
        }
        self.extent.trail = left;
        len - left
    }
}
