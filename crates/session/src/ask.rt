//! The question to the source of rules.
ghost use Rattle.std.specs.Prelude.{◌≡◌, ◌*◌};
ghost use Rattle.theory.specs.Trail.{valuation};
ghost use Rattle.session.specs.InHand.{answer_in_hand};
ghost use Rattle.session.specs.Finding.{TakenWhole};
ghost use Rattle.session.specs.Memories.{trail_in, Framed};

use crate::memory::Memory;
use rules::source::Source;

impl Memory<'_> {
    /// Questions the source on the values. A told clause is then in hand: it stands in the words behind them. Says how many
    /// literals it has.
    pub(crate) fn ask<S: Source>(&mut self, source: &S) -> Option<usize>
        requires { (S.meaning source.now).count ≡ self.old.layout.variables }
        ensures told { answer_in_hand self.old.layout.variables self.new.words.now result ≡ (S.meaning source.now).answer (valuation self.old.layout.variables (trail_in self.old)) }
        ensures whole { TakenWhole self.old.layout.variables self.new.words.now result }
        ensures frame { Framed (4 * self.old.layout.variables) self.old.layout.variables self.old self.new }
    {
        let n = self.layout.variables;
        source.question(&mut self.words[3 * n..5 * n])
    }
}
