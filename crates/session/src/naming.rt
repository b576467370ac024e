//! Naming: which assumed literals a conflict rests on.
ghost use Rattle.std.specs.Prelude.{◌≡◌, ℕ, ◌+◌, ◌*◌, ◌<◌, ◌≤◌, true, ◌&&◌, ◌||◌, ◌⊎◌, length, ℤ, All, filter};
ghost use Rattle.rules.specs.Literals.{in_range, has};
ghost use Rattle.theory.specs.Trail.{assumed_literals};
ghost use Rattle.theory.specs.Chunks.{in_chunk, touches};
ghost use Rattle.session.specs.Words.{word_at, words_from, row_at};
ghost use Rattle.session.specs.Decode.{stands, entry_at, marked_index, marked};
ghost use Rattle.session.specs.Analysis.{names_index};
ghost use Rattle.session.specs.Naming.{with_reason, marks_member};
ghost use Rattle.session.specs.Memories.{trail_in, clause_in, FalsifiedInHand, Framed};

use crate::memory::Memory;
use rules::literal::Value;
use weights::weigher::Standing;

impl Memory<'_> {
    /// Marks, of the assumed literals on the trail, those whose chunks the falsified clause of `k` words in hand touches.
    /// Other marks tell nothing then.
    pub(crate) fn mark_roots(&mut self, k: usize)
        requires { FalsifiedInHand self.old k }
        ensures named { filter (marked self.old.layout.variables self.new.words.now) (assumed_literals (trail_in self.old))
            ≡ filter (λ r. touches (trail_in self.old) r (clause_in self.old k)) (assumed_literals (trail_in self.old)) }
        ensures frame { Framed (5 * self.old.layout.variables) self.old.layout.variables self.old self.new }
    {
        self.clear_marks();
        self.mark_variables(self.layout.clause(0), k);
        self.mark_reasons();
    }

    /// Marks back along the trail the reasons of marked literals. An assumed literal is then marked just where a literal of its chunk was.
    fn mark_reasons(&mut self)
        ensures marked { (r : ℤ) → has (assumed_literals (trail_in self.old)) r ≡ true → marked self.old.layout.variables self.new.words.now r
            ≡ marks_member (marked_index self.old.layout.variables self.old.words.now) (in_chunk r (trail_in self.old)) (trail_in self.old) }
        ensures frame { Framed (5 * self.old.layout.variables) self.old.layout.variables self.old self.new }
    {
        // Each turn reads the marks that the one before left.
        for place in (0..self.extent.trail).rev() {
            self.mark_reason(place);
        }
    }

    /// Marks the variables of the reason of the literal at a place, if that is marked and implied.
    fn mark_reason(&mut self, place: usize)
        requires { place < self.old.extent.trail }
        ensures marked { (x : ℕ) → marked_index self.old.layout.variables self.new.words.now x
            ≡ with_reason (marked_index self.old.layout.variables self.old.words.now) (entry_at self.old.layout.variables self.old.words.now place) x }
        ensures frame { Framed (5 * self.old.layout.variables) self.old.layout.variables self.old self.new }
    {
        let x = self.variable(place);
        if self.is_marked_as(x, Standing::Implied) {
            let count = self.reason_count(x);
            self.mark_variables(self.layout.reason(x), count);
        }
    }

    /// Whether a literal in range is assumed on the trail and marked.
    pub(crate) fn is_marked_root(&self, literal: i32) -> bool
        requires { in_range self.now.layout.variables literal ≡ true }
        ensures { result ≡ has (filter (marked self.now.layout.variables self.now.words.now) (assumed_literals (trail_in self.now))) literal }
    {
        self.value(literal) == Value::True
            && self.is_marked_as(self.layout.index_of(literal), Standing::Assumed)
    }

    /// Whether a variable is marked and its literal stands so.
    fn is_marked_as(&self, x: usize, standing: Standing) -> bool
        requires { x < self.now.layout.variables }
        ensures { result ≡ (marked_index self.now.layout.variables self.now.words.now x && stands (word_at self.now.words.now (row_at self.now.layout.variables x 0)) standing) }
    {
        self.is_marked(x) && self.standing(x) == standing
    }

    /// Marks the variables of `k` words from `base` on, which are no marks themselves.
    fn mark_variables(&mut self, base: usize, k: usize)
        requires within { base + k ≤ length self.old.words.now }
        requires apart { (base + k ≤ 5 * self.old.layout.variables) ⊎ (6 * self.old.layout.variables ≤ base) }
        requires ranged { All (λ l. in_range self.old.layout.variables l ≡ true) (words_from self.old.words.now base k) }
        ensures marked { (x : ℕ) → marked_index self.old.layout.variables self.new.words.now x
            ≡ (marked_index self.old.layout.variables self.old.words.now x || names_index (words_from self.old.words.now base k) x) }
        ensures frame { Framed (5 * self.old.layout.variables) self.old.layout.variables self.old self.new }
    {
        // The literals read and the marks written are of one slice, so the literals go by their numbers.
        for i in 0..k {
            let x = self.layout.index_of(self.words[base + i]);
            self.set_mark(x, true);
        }
    }
}
