//! The weight of a marked chunk.
ghost use Rattle.std.specs.Prelude.{◌≡◌, ℤ};
ghost use Rattle.weights.specs.Weighing.{total_weight};
ghost use Rattle.theory.specs.Chunks.{in_chunk, members, chunk};
ghost use Rattle.session.specs.Decode.{marked, Marked};
ghost use Rattle.session.specs.Memories.{trail_in};

use crate::memory::Memory;
use weights::order::Scale;
use weights::weigher::{Member, Weigher};

impl Memory<'_> {
    /// What the marked members of the trail weigh together, the oldest first. Where a chunk is marked, that is its weight.
    pub(crate) fn weigh_marked<W: Weigher>(&self, weigher: &W) -> W::Weight
        ensures marked { result ≡ total_weight W.Weight.zero W.Weight.plus (W.weight weigher.now) (members (marked self.now.layout.variables self.now.words.now) (trail_in self.now)) }
        ensures chunk { (d : ℤ) → Marked self.now.layout.variables (trail_in self.now) (in_chunk d (trail_in self.now)) self.now.words.now
            → result ≡ total_weight W.Weight.zero W.Weight.plus (W.weight weigher.now) (chunk (trail_in self.now) d) }
    {
        let start = 2 * self.layout.variables;
        let trail = &self.words[start..start + self.extent.trail];
        // A plain loop, by a rule of the project: each marked member's answer is added as it comes, the oldest first.
        let mut sum = W::Weight::zero();
        for (place, literal) in trail.iter().enumerate() {
            if self.is_marked(self.variable(place)) {
                let standing = self.standing_at(place);
                sum = sum.plus(weigher.weigh(Member {
                    literal: *literal,
                    standing,
                    place,
                }));
            }
        }
        sum
    }
}
