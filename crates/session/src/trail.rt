//! The trail: what stands at a place, and one literal more.
ghost use Rattle.std.specs.Prelude.{◌≡◌, ℕ, ◌<◌, ◌≤◌};
ghost use Rattle.theory.specs.Trail.{Placeable};
ghost use Rattle.theory.specs.Chunks.{standing};
ghost use Rattle.theory.specs.Search.{placed};
ghost use Rattle.session.specs.Words.{word_at, index_of, row_at};
ghost use Rattle.session.specs.Decode.{as_entry, standing_of, standing_word, literal_at, entry_at, reason_of};
ghost use Rattle.session.specs.Memories.{trail_in, position_in, clause_in, Keeps};

use crate::layout::{standing_of, word_of};
use crate::memory::Memory;
use weights::weigher::Standing;

impl Memory<'_> {
    /// Places a literal, with the reason that its variable's row holds where it is implied. The clause in hand stays.
    pub(crate) fn place(&mut self, literal: i32, standing: Standing)
        requires { Placeable self.old.layout.variables (trail_in self.old)
            (as_entry (standing_word standing) literal (reason_of self.old.layout.variables self.old.words.now (index_of literal))) }
        ensures placed { position_in self.new
            ≡ placed (position_in self.old) (as_entry (standing_word standing) literal (reason_of self.old.layout.variables self.old.words.now (index_of literal))) }
        ensures clause { (k : ℕ) → k ≤ self.old.layout.variables → clause_in self.new k ≡ clause_in self.old k }
        ensures keeps { Keeps self.old self.new }
    {
        let layout = self.layout;
        let len = self.extent.trail;
        let x = layout.index_of(literal);
        let words = &mut *self.words;
        words[layout.trail(len)] = literal;
        words[layout.value(x)] = literal;
        words[layout.row(x, 0)] = word_of(standing);
        self.extent.trail = len + 1;
    }

    /// The literal at a place of the trail.
    pub(crate) fn literal(&self, place: usize) -> i32
        requires { place < self.now.extent.trail }
        ensures { result ≡ literal_at self.now.layout.variables self.now.words.now place }
    {
        self.words[self.layout.trail(place)]
    }

    /// The index of the variable at a place of the trail.
    pub(crate) fn variable(&self, place: usize) -> usize
        requires { place < self.now.extent.trail }
        ensures is { result ≡ index_of (literal_at self.now.layout.variables self.now.words.now place) }
        ensures below { result < self.now.layout.variables }
    {
        self.layout.index_of(self.literal(place))
    }

    /// How a variable's literal stands, by its row.
    pub(crate) fn standing(&self, x: usize) -> Standing
        requires { x < self.now.layout.variables }
        ensures { result ≡ standing_of (word_at self.now.words.now (row_at self.now.layout.variables x 0)) }
    {
        standing_of(self.words[self.layout.row(x, 0)])
    }

    /// How the literal at a place of the trail came to stand there.
    pub(crate) fn standing_at(&self, place: usize) -> Standing
        requires { place < self.now.extent.trail }
        ensures { result ≡ standing (entry_at self.now.layout.variables self.now.words.now place) }
    {
        self.standing(self.variable(place))
    }
}
