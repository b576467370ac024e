//! Taking a step that is due.
ghost use Rattle.std.specs.Prelude.{◌≡◌, ◌≤◌, length, replicate};
ghost use Rattle.session.specs.Memories.{position_in, Keeps};
ghost use Rattle.session.specs.Reports.{kind_of, undone_by};
ghost use Rattle.session.specs.Plans.{Ready, Taken};

use crate::memory::Memory;
use crate::plan::Step;
use crate::report::Kind;
use weights::weigher::Standing;

impl Memory<'_> {
    /// Takes the step, and says of which kind it was. All scratch bytes are 0 before and afterwards.
    // That the scratch has room and is 0 is asked here and where a run is driven: the bytes are the caller's, beside the memory.
    pub(crate) fn take(&mut self, step: Step, scratch: &mut [u8]) -> Kind
        requires ready { Ready self.old step }
        requires room { self.old.layout.variables ≤ length scratch.old }
        requires clear { scratch.old ≡ replicate (length scratch.old) 0 }
        ensures taken { Taken self.old step (kind_of result) (undone_by result) (position_in self.new) }
        ensures few { undone_by result ≤ self.old.layout.variables }
        ensures keeps { Keeps self.old self.new }
        ensures clear { scratch.new ≡ replicate (length scratch.old) 0 }
    {
        // A match, not a function value: the steps are four and closed, and each has its own data.
        match step {
            Step::Assume(number) => {
                let literal = self.words[number];
                self.place(literal, Standing::Assumed);
                Kind::Assumed
            }
            Step::Decide(literal) => {
                self.place(literal, Standing::Decided);
                Kind::Decided
            }
            Step::Imply { count, at } => {
                self.imply(count, at);
                Kind::Implied
            }
            Step::Repair { count, root } => Kind::Conflict {
                undone: self.repair(root, count, scratch),
            },
        }
    }
}
