//! The analysis of a falsified clause: its set of literals is held by variable in lent scratch bytes.
ghost use Rattle.std.specs.Prelude.{◌≡◌, ℕ, ◌+◌, ◌*◌, ◌<◌, ◌≤◌, Bool, false, not, ◌&&◌, ◌||◌, length, replicate, ℤ, ◌==◌};
ghost use Rattle.rules.specs.Literals.{has};
ghost use Rattle.theory.specs.Trail.{WellFormed};
ghost use Rattle.theory.specs.Chunks.{in_chunk};
ghost use Rattle.theory.specs.Conflict.{learned, Analysed};
ghost use Rattle.theory.proofs.Trails.{AllFalse};
ghost use Rattle.theory.proofs.Analysis.{analyse as analysis};
ghost use Rattle.session.specs.Decode.{literal_at, entry_at, trail_of, clause_of, marked_index, marked, Marked};
ghost use Rattle.session.specs.Analysis.{held, set_of, names_index, one, both_count, analysed_at};
ghost use Rattle.session.specs.Memories.{trail_in, clause_in, FalsifiedInHand, Framed};

use crate::memory::Memory;
use weights::weigher::Standing;

impl Memory<'_> {
    /// Analyses the falsified clause of `k` words in hand for the chunk of the literal at the place `root`, and marks that chunk.
    /// What the analysis leaves is then the clause in hand, by rising variable; says how many literals that are.
    pub(crate) fn analyse(&mut self, root: usize, k: usize, scratch: &mut [u8]) -> usize
        requires rooted { root < self.old.extent.trail }
        requires falsified { FalsifiedInHand self.old k }
        requires room { self.old.layout.variables ≤ length scratch.old }
        ensures left { (S : ℤ → Bool)
            × Analysed (in_chunk (literal_at self.old.layout.variables self.old.words.now root) (trail_in self.old)) (trail_in self.old) (has (clause_in self.old k)) S
            × (clause_of self.old.layout.variables result self.new.words.now ≡ learned self.old.layout.variables S) }
        ensures marked { Marked self.old.layout.variables (trail_in self.old) (in_chunk (literal_at self.old.layout.variables self.old.words.now root) (trail_in self.old)) self.new.words.now }
        ensures few { result ≤ self.old.layout.variables }
        ensures frame { Framed (4 * self.old.layout.variables) (2 * self.old.layout.variables) self.old self.new }
        ensures cleared { scratch.new ≡ replicate (length scratch.old) 0 }
    {
        self.mark_chunk(root);
        scratch.fill(0);
        let mut set = Held(scratch);
        self.resolve(k, set.0);
        self.collect(set.0)
    }

    /// Resolves the falsified clause of `k` words in hand back along the trail, until at most one of its literals is marked.
    fn resolve(&self, k: usize, scratch: &mut [u8])
        requires few { k ≤ self.now.layout.variables }
        requires falsified { AllFalse (trail_in self.now) (clause_in self.now k) }
        requires room { self.now.layout.variables ≤ length scratch.old }
        requires clear { (x : ℕ) → held scratch.old x ≡ false }
        ensures { set_of (trail_in self.now) (held scratch.new)
            ≡ analysis (marked self.now.layout.variables self.now.words.now) (trail_in self.now) (has (clause_in self.now k)) }
    {
        let len = self.extent.trail;
        let mut touching = self.include_all(len, self.clause(k), scratch);
        for place in (0..len).rev() {
            if touching <= 1 {
                break;
            }
            touching = self.resolve_at(place, touching, scratch);
        }
    }

    /// One step back along the trail, to the entry at `place`. Of the `touching` variables up to there that are marked and held,
    /// says how many are below it afterwards.
    fn resolve_at(&self, place: usize, touching: usize, scratch: &mut [u8]) -> usize
        requires within { place < self.now.extent.trail }
        requires room { self.now.layout.variables ≤ length scratch.old }
        requires touching { touching ≡ both_count (marked_index self.now.layout.variables self.now.words.now) (held scratch.old) (trail_of self.now.layout.variables (place + 1) self.now.words.now) }
        ensures touching { result ≡ both_count (marked_index self.now.layout.variables self.now.words.now) (held scratch.new) (trail_of self.now.layout.variables place self.now.words.now) }
        ensures set { set_of (trail_in self.now) (held scratch.new)
            ≡ analysed_at (marked self.now.layout.variables self.now.words.now) (entry_at self.now.layout.variables self.now.words.now place) (set_of (trail_in self.now) (held scratch.old)) }
    {
        let x = self.variable(place);
        if !self.is_hit(x, scratch) {
            return touching;
        }
        if self.standing(x) != Standing::Implied {
            return touching - 1;
        }
        forget(scratch, x);
        touching - 1 + self.include_all(place, self.reason(x), scratch)
    }

    /// Whether a variable is marked and held.
    fn is_hit(&self, x: usize, scratch: &[u8]) -> bool
        requires { x < self.now.layout.variables }
        ensures { result ≡ (marked_index self.now.layout.variables self.now.words.now x && held scratch.now x) }
    {
        self.is_marked(x) && holds(scratch, x)
    }

    /// Holds the variables of literals that are false on the oldest `place` entries of the trail.
    /// Says how many of these are new and marked.
    fn include_all(&self, place: usize, literals: &[i32], scratch: &mut [u8]) -> usize
        requires formed { WellFormed self.now.layout.variables (trail_of self.now.layout.variables place self.now.words.now) }
        requires falsified { AllFalse (trail_of self.now.layout.variables place self.now.words.now) literals.now }
        requires room { self.now.layout.variables ≤ length scratch.old }
        ensures held { (x : ℕ) → held scratch.new x ≡ (held scratch.old x || names_index literals.now x) }
        ensures new { result + both_count (marked_index self.now.layout.variables self.now.words.now) (held scratch.old) (trail_of self.now.layout.variables place self.now.words.now)
            ≡ both_count (marked_index self.now.layout.variables self.now.words.now) (held scratch.new) (trail_of self.now.layout.variables place self.now.words.now) }
        ensures small { result ≤ length literals.now }
    {
        // Not by `sum`: each addend changes the scratch.
        let mut new: usize = 0;
        for literal in literals {
            new += self.include(self.layout.index_of(*literal), scratch);
        }
        new
    }

    /// Holds a variable: 1 where that is new and the variable is marked, else 0.
    fn include(&self, x: usize, scratch: &mut [u8]) -> usize
        requires within { x < self.now.layout.variables }
        requires room { self.now.layout.variables ≤ length scratch.old }
        ensures held { (y : ℕ) → held scratch.new y ≡ (held scratch.old y || y == x) }
        ensures new { result ≡ one (not (held scratch.old x) && marked_index self.now.layout.variables self.now.words.now x) }
        ensures small { result ≤ 1 }
    {
        if holds(scratch, x) {
            return 0;
        }
        scratch[x] = 1;
        usize::from(self.is_marked(x))
    }

    /// Writes the literals of the held set, which are false on the trail, into the clause in hand, by rising variable, and says how
    /// many there are.
    fn collect(&mut self, scratch: &[u8]) -> usize
        ensures clause { clause_of self.old.layout.variables result self.new.words.now ≡ learned self.old.layout.variables (set_of (trail_in self.old) (held scratch.now)) }
        ensures few { result ≤ self.old.layout.variables }
        ensures frame { Framed (4 * self.old.layout.variables) self.old.layout.variables self.old self.new }
    {
        let n = self.layout.variables;
        let words = &mut *self.words;
        // All the words are split: where a part of them is lent and split, it is not known what is left of it.
        let (front, clause) = words.split_at_mut(4 * n);
        let values = &front[3 * n..];
        // A loop that counts: the number of the literals is needed besides, and a chain would be gone over twice.
        let mut count: usize = 0;
        for (x, value) in values.iter().enumerate() {
            if *value != 0 && holds(scratch, x) {
                clause[count] = -*value;
                count += 1;
            }
        }
        count
    }
}

// These are no methods of the guard (`Held`), since each function would be lent the guard then: it could be given other bytes, so that
// each would have to promise that it has the same ones. That the bytes have room for every variable is asked of bytes and memory
// together, which the caller lends separately.

/// Whether a variable is held.
fn holds(scratch: &[u8], x: usize) -> bool
    ensures { result ≡ held scratch.now x }
{
    scratch.get(x).is_some_and(|byte| *byte != 0)
}

/// Lets a variable go.
fn forget(scratch: &mut [u8], x: usize)
    requires { x < length scratch.old }
    ensures { (y : ℕ) → held scratch.new y ≡ (held scratch.old y && not (y == x)) }
{
    scratch[x] = 0;
}

/// The set that an analysis goes by, in lent bytes, which are all 0 again once it is let go.
struct Held<'a>(&'a mut [u8]);

impl Drop for Held<'_> {
    fn drop(self)
        ensures { self.exit.0.now ≡ replicate (length self.entry.0.now) 0 }
    {
        self.0.fill(0);
        let Held(_) = self;
    }
}
