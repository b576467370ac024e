//! A book that is filled literal by literal.
ghost use Rattle.std.specs.Prelude.{◌≡◌, ℕ, ℤ, fold};

/// A book of rules, of one of which the literals are being written.
pub trait Book {
    /// What the book comes to.
    ghost Filling: { Type 0 };

    ghost filling: { Self → Filling };

    /// The same with one literal more.
    ghost pushed: { Filling → ℤ → Filling };

    /// The number of its words.
    ghost size: { Filling → ℕ };

    /// Adds one literal to the rule that is being written.
    fn push(&mut self, literal: i32)
        ensures { filling self.new ≡ pushed (filling self.old) literal };

    /// The number of words stays as literals are added.
    ghost keeps_size: { (b : Filling) (l : ℤ) → size (pushed b l) ≡ size b };
}

/// Adds the literals, one after the other, to the rule that is being written.
pub(crate) fn push_all<B: Book>(book: &mut B, literals: &[i32])
    ensures { B.filling book.new ≡ fold B.pushed (B.filling book.old) literals.now }
{
    for literal in literals {
        book.push(*literal);
    }
}
