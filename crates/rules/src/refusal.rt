//! Why a call is refused.
ghost use Rattle.std.specs.Prelude.{◌≡◌};
ghost use Rattle.rules.specs.Drafts.{number_of};

/// A refusal, with its number. A refused rule leaves the rules that stand as they were, and is gone: its words are 0.
#[derive(Clone, Copy, PartialEq, Eq, Debug)]
pub enum Refusal {
    /// A literal is 0, or its variable is not one of 1 to n.
    NoVariable = 2,
    /// The book's words do not suffice, or 65,535 clauses stand in it.
    NoRoom = 8,
    /// The variables of a group do not strictly rise.
    NotRising = 9,
}

/// The number by which a refusal is known.
impl From<Refusal> for u8 {
    ghost from_gives = { λ refusal number. number ≡ number_of refusal };

    fn from(refusal: Refusal) -> u8 {
        refusal as u8
    }
}
