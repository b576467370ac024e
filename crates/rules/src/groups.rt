//! A book of at-most groups.
mod filling;
mod telling;

ghost use Rattle.std.specs.Prelude.{◌≡◌, ◌^◌, ◌<◌, ◌≤◌, true, map};
ghost use Rattle.std.specs.List.{list_all};
ghost use Rattle.rules.specs.Literals.{in_range};
ghost use Rattle.rules.specs.Sources.{Lawful};
ghost use Rattle.rules.specs.SourceLaws.{lawful_prop};
ghost use Rattle.rules.specs.Books.{group_book};
ghost use Rattle.rules.specs.Rows.{ended, rows};
ghost use Rattle.rules.specs.Drafts.{unless};
ghost use Rattle.rules.specs.GroupRows.{as_group, group_row_fits, draft_fits};
ghost use Rattle.rules.specs.RowBuffers.{content};

use crate::row_buffer::RowBuffer;

/// A book of groups that is being filled, over lent words.
///
/// A group says that at most so many of its literals are true. It takes a word for each literal and two more: one for its
/// limit, which holds the next higher number so that it is not 0, and the 0 that ends the row. `last` is the variable of
/// the last literal that rose.
#[derive(Drop)]
pub struct GroupBook<'a> {
    buffer: RowBuffer<'a>,
    last: u32,
    ghost fit: { list_all (group_row_fits buffer.variables) (content buffer).standing ≡ true },
    ghost drafted: { unless buffer.fault (draft_fits buffer.variables last) (content buffer).draft ≡ true },
}

/// A book of groups that has been filled. Nothing can be added to it any more; it answers questions, and is a lawful source.
#[derive(Clone, Copy)]
pub struct SealedGroups<'a> {
    words: &'a [i32],
    variables: u32,
    ghost ends: { ended words.now ≡ true },
    ghost fits: { list_all (group_row_fits variables) (rows words.now) ≡ true },
    ghost lawful: { Lawful (group_book variables (map as_group (rows words.now))) } by { lawful_prop (group_book variables (map as_group (rows words.now))) },
    ghost few: { variables ≤ 1000 },
}

/// A group of a sealed book, taken from its row: its literals, and how many of them may be true at most.
#[derive(Clone, Copy)]
struct GroupRow<'a> {
    literals: &'a [i32],
    limit: usize,
    ghost small: { limit < 2 ^ 31 },
    ghost ranged: { list_all (in_range 1000) literals.now ≡ true },
}
