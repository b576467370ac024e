//! The repair of a conflict: a chunk is undone, and the literal that touched it is placed with the learned clause as its reason.
ghost use Rattle.std.specs.Prelude.{◌≡◌, ◌≤◌, length, replicate};
ghost use Rattle.theory.specs.Chunks.{chunk};
ghost use Rattle.session.specs.Decode.{literal_at};
ghost use Rattle.session.specs.Memories.{trail_in, position_in, clause_in, Keeps};
ghost use Rattle.session.specs.Plans.{ConflictInHand};
ghost use Rattle.session.specs.Repair.{Repairs};

use crate::memory::Memory;

impl Memory<'_> {
    /// Repairs the conflict with the falsified clause of `k` words in hand, which touches the chunk of the decision at the place `root`.
    /// The clause is analysed for that chunk. The chunk is undone, the literal that touched it is placed, and what the analysis left is
    /// learned. Says how many literals were undone. The scratch bytes are all 0 afterwards.
    pub(crate) fn repair(&mut self, root: usize, k: usize, scratch: &mut [u8]) -> usize
        requires conflict { ConflictInHand self.old.layout.variables self.old.extent.trail self.old.words.now k root }
        requires room { self.old.layout.variables ≤ length scratch.old }
        ensures repairs { Repairs self.old.layout.variables self.old.layout.slots (position_in self.old) (clause_in self.old k)
            (literal_at self.old.layout.variables self.old.words.now root) (position_in self.new) }
        ensures undone { result ≡ length (chunk (trail_in self.old) (literal_at self.old.layout.variables self.old.words.now root)) }
        ensures keeps { Keeps self.old self.new }
        ensures cleared { scratch.new ≡ replicate (length scratch.old) 0 }
    {
        let left = self.analyse(root, k, scratch);
        let at = self.first_marked(self.clause(left)).unwrap();
        let undone = self.undo_marked();
        self.imply(left, at);
        self.learn(left);
        undone
    }
}
