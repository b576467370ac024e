//! Rows of words over lent words.
mod filling;

ghost use Rattle.std.specs.Prelude.{◌≡◌, ◌+◌, ◌≤◌, true, not, length, take, drop};
ghost use Rattle.std.specs.List.{list_all};
ghost use Rattle.rules.specs.Rows.{is_zero, ended};

use crate::refusal::Refusal;

/// Rows of words that are filled word by word, over lent words, and the number of variables that their literals may have.
///
/// A row's own words are not 0, and a 0 ends it. The rows that stand take the first `used` words, the row that is being
/// written the next `len`, and the rest are 0. `fault` is the refusal that the row that is being written has earned so far.
// Words with lengths beside them, and no Vec: a book has the words that it was lent, and nothing is allocated.
#[derive(Drop)]
pub(crate) struct RowBuffer<'a> {
    words: &'a mut [i32],
    pub(crate) variables: u32,
    used: usize,
    len: usize,
    pub(crate) fault: Option<Refusal>,
    ghost within: { used + len ≤ length words.now },
    ghost ends: { ended (take used words.now) ≡ true },
    ghost drafted: { list_all (λ w. not (is_zero w)) (take len (drop used words.now)) ≡ true },
    ghost zeros: { list_all is_zero (drop (used + len) words.now) ≡ true },
    ghost few: { variables ≤ 1000 },
}
