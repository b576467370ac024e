//! Where the words of a session stand, and what a word tells.
ghost use Rattle.std.specs.Prelude.{◌≡◌, ◌+◌, ◌*◌, ◌<◌, ◌≤◌, true, ◌==◌, unsigned_abs};
ghost use Rattle.rules.specs.Literals.{in_range};
ghost use Rattle.session.specs.Words.{index_of, trail_at, value_at, clause_at, mark_at, row_at, size};
ghost use Rattle.session.specs.Decode.{standing_of, standing_word};

use weights::weigher::Standing;

/// How many variables and slots a session has. It says where each word stands.
#[derive(Clone, Copy)]
pub(crate) struct Layout {
    pub variables: usize,
    pub slots: usize,
    ghost small: { (variables ≤ 1000) × (slots ≤ 1000) },
}

/// How much is in use: so many assumptions, so many literals on the trail, and so many slots.
#[derive(Clone, Copy)]
pub(crate) struct Extent {
    pub assumptions: usize,
    pub trail: usize,
    pub slots: usize,
}

impl Layout {
    /// The index of the variable of a literal in range, from 0.
    pub(crate) fn index_of(self, literal: i32) -> usize
        requires { in_range self.variables literal ≡ true }
        ensures is { result ≡ index_of literal }
        ensures below { result < self.variables }
    {
        literal.unsigned_abs() as usize - 1
    }

    /// Where the literal at a place of the trail stands.
    pub(crate) fn trail(self, place: usize) -> usize
        requires { place < self.variables }
        ensures { result ≡ trail_at self.variables place }
    {
        2 * self.variables + place
    }

    /// Where the value of a variable stands: its literal that is true, or 0.
    pub(crate) fn value(self, index: usize) -> usize
        requires { index < self.variables }
        ensures { result ≡ value_at self.variables index }
    {
        3 * self.variables + index
    }

    /// Where a literal of the clause in hand stands.
    pub(crate) fn clause(self, place: usize) -> usize
        requires { place ≤ self.variables }
        ensures { result ≡ clause_at self.variables place }
    {
        4 * self.variables + place
    }

    /// Where the mark of a variable stands.
    pub(crate) fn mark(self, index: usize) -> usize
        requires { index < self.variables }
        ensures { result ≡ mark_at self.variables index }
    {
        5 * self.variables + index
    }

    /// Where word `k` of a row stands.
    pub(crate) fn row(self, index: usize, k: usize) -> usize
        requires { (index < self.variables + self.slots) × (k ≤ self.variables) }
        ensures at { result ≡ row_at self.variables index k }
        ensures below { result < size self.variables self.slots }
    {
        self.row_start(index) + k
    }

    /// Where a row begins.
    fn row_start(self, index: usize) -> usize
        requires { index < self.variables + self.slots }
        ensures { result ≡ row_at self.variables index 0 }
    {
        6 * self.variables + index * (self.variables + 1)
    }

    /// Where the other literals of a variable's reason begin.
    pub(crate) fn reason(self, index: usize) -> usize
        requires { index < self.variables }
        ensures { result ≡ row_at self.variables index 2 }
    {
        self.row_start(index) + 2
    }

    /// Where the literals of a slot begin.
    pub(crate) fn slot(self, slot: usize) -> usize
        requires { slot < self.slots }
        ensures at { result ≡ row_at self.variables (self.variables + slot) 1 }
        ensures room { result + self.variables ≤ size self.variables self.slots }
    {
        self.row_start(self.variables + slot) + 1
    }
}

/// Whether the word of a mark says that its variable is marked.
// A session has its lent words alone, so a mark and a standing are words there. What a word says is told here alone. No `From`: the
// types are of other crates.
pub(crate) fn is_mark(word: i32) -> bool
    ensures { result ≡ (unsigned_abs word == 1) }
{
    word.unsigned_abs() == 1
}

/// A standing as a word.
pub(crate) fn word_of(standing: Standing) -> i32
    ensures { result ≡ standing_word standing }
{
    match standing {
        Standing::Assumed => 1,
        Standing::Decided => 2,
        Standing::Implied => 3,
    }
}

/// The standing that a word tells.
pub(crate) fn standing_of(word: i32) -> Standing
    ensures { result ≡ standing_of word }
{
    match word.unsigned_abs() {
        3 => Standing::Implied,
        1 => Standing::Assumed,
        _ => Standing::Decided,
    }
}
