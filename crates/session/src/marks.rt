//! Marks: which variables of the trail are in a chunk.
ghost use Rattle.std.specs.Prelude.{◌≡◌, ℕ, ◌*◌, ◌<◌, true, All, pos};
ghost use Rattle.std.specs.List.{position};
ghost use Rattle.rules.specs.Literals.{in_range};
ghost use Rattle.theory.specs.Chunks.{joins as joins-chunk, in_chunk};
ghost use Rattle.theory.proofs.Trails.{meets};
ghost use Rattle.session.specs.Words.{word_at, mark_at, Wrote};
ghost use Rattle.session.specs.Decode.{literal_at, entry_at, bit, marked_index, marked, Marked};
ghost use Rattle.session.specs.Memories.{trail_in, Framed};

use crate::layout::is_mark;
use crate::memory::Memory;
use weights::weigher::Standing;

impl Memory<'_> {
    /// Marks the chunk of the literal at the place `root` of the trail, and nothing else.
    pub(crate) fn mark_chunk(&mut self, root: usize)
        requires { root < self.old.extent.trail }
        ensures marked { Marked self.old.layout.variables (trail_in self.old) (in_chunk (literal_at self.old.layout.variables self.old.words.now root) (trail_in self.old)) self.new.words.now }
        ensures frame { Framed (5 * self.old.layout.variables) self.old.layout.variables self.old self.new }
    {
        self.clear_marks();
        // No older literal is in the chunk. The literals read and the marks written are of one slice, so the literals go by their places.
        for place in root..self.extent.trail {
            let x = self.variable(place);
            let joined = self.joins(root, place);
            self.set_mark(x, joined);
        }
    }

    /// Whether the literal at a place joins the chunk of the one at `root`, where the older members are marked.
    fn joins(&self, root: usize, place: usize) -> bool
        requires rooted { root < self.now.extent.trail }
        requires within { place < self.now.extent.trail }
        ensures { result ≡ joins-chunk (literal_at self.now.layout.variables self.now.words.now root) (marked self.now.layout.variables self.now.words.now)
            (entry_at self.now.layout.variables self.now.words.now place) }
    {
        let x = self.variable(place);
        if self.standing(x) == Standing::Implied {
            self.any_marked(self.reason(x))
        } else {
            self.literal(root) == self.literal(place)
        }
    }

    /// Whether one of the literals, which are in range, has its variable marked.
    // That they are in range is asked of the list: of a part of the words it follows from what the memory knows of its words, and a type
    // for such lists would have to be built by each caller.
    pub(crate) fn any_marked(&self, literals: &[i32]) -> bool
        requires { All (λ l. in_range self.now.layout.variables l ≡ true) literals.now }
        ensures { result ≡ meets (marked self.now.layout.variables self.now.words.now) literals.now }
    {
        self.first_marked(literals).is_some()
    }

    /// The number, from 0, of the first literal in range whose variable is marked, if there is one.
    pub(crate) fn first_marked(&self, literals: &[i32]) -> Option<usize>
        requires { All (λ l. in_range self.now.layout.variables l ≡ true) literals.now }
        ensures { result ≡ position (marked self.now.layout.variables self.now.words.now) literals.now }
    {
        literals
            .iter()
            .position(|literal| self.is_marked(self.layout.index_of(*literal)))
    }

    /// Whether a variable is marked.
    pub(crate) fn is_marked(&self, x: usize) -> bool
        requires { x < self.now.layout.variables }
        ensures { result ≡ marked_index self.now.layout.variables self.now.words.now x }
    {
        is_mark(self.words[self.layout.mark(x)])
    }

    /// Marks a variable, or takes its mark away.
    pub(crate) fn set_mark(&mut self, x: usize, mark: bool)
        requires { x < self.old.layout.variables }
        ensures wrote { Wrote (mark_at self.old.layout.variables x) (bit mark) self.old.words.now self.new.words.now }
        ensures frame { Framed (5 * self.old.layout.variables) self.old.layout.variables self.old self.new }
    {
        self.words[self.layout.mark(x)] = i32::from(mark);
    }

    /// Takes every mark away.
    pub(crate) fn clear_marks(&mut self)
        ensures cleared { (x : ℕ) → x < self.old.layout.variables → word_at self.new.words.now (mark_at self.old.layout.variables x) ≡ pos 0 }
        ensures frame { Framed (5 * self.old.layout.variables) self.old.layout.variables self.old self.new }
    {
        let n = self.layout.variables;
        self.words[5 * n..6 * n].fill(0);
    }
}
