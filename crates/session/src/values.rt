//! The value of a literal.
ghost use Rattle.std.specs.Prelude.{◌≡◌, suc, ◌<◌, true, pos};
ghost use Rattle.rules.specs.Literals.{in_range};
ghost use Rattle.rules.specs.Values.{value_in};
ghost use Rattle.theory.specs.Trail.{on, valuation};
ghost use Rattle.session.specs.Words.{word_at};
ghost use Rattle.session.specs.Decode.{open_index};
ghost use Rattle.session.specs.Memories.{trail_in};

use crate::memory::Memory;
use rules::literal::{Value, value_of};

impl Memory<'_> {
    /// The values of the variables, each its literal that is true, or 0.
    pub(crate) fn values(&self) -> &[i32]
        ensures { result.now ≡ valuation self.now.layout.variables (trail_in self.now) }
    {
        let n = self.layout.variables;
        &self.words[3 * n..4 * n]
    }

    /// What a literal in range is on the trail.
    pub(crate) fn value(&self, literal: i32) -> Value
        requires { in_range self.now.layout.variables literal ≡ true }
        ensures { result ≡ value_in (on (trail_in self.now)) literal }
    {
        value_of(literal, self.values())
    }

    /// What the assumption of a number, from 0, is on the trail.
    pub(crate) fn assumption_value(&self, number: usize) -> Value
        requires { number < self.now.extent.assumptions }
        ensures { result ≡ value_in (on (trail_in self.now)) (word_at self.now.words.now number) }
    {
        self.value(self.words[number])
    }

    /// Whether the variable of an index is true on the trail.
    pub(crate) fn is_true(&self, index: usize) -> bool
        requires { index < self.now.layout.variables }
        ensures { result ≡ on (trail_in self.now) (pos (suc index)) }
    {
        self.words[self.layout.value(index)] > 0
    }

    /// Whether a variable has no value.
    pub(crate) fn is_open(&self, x: usize) -> bool
        requires { x < self.now.layout.variables }
        ensures { result ≡ open_index self.now.layout.variables self.now.words.now x }
    {
        self.words[self.layout.value(x)] == 0
    }
}
