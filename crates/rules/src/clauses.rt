//! A book of clauses.
mod filling;
mod telling;

ghost use Rattle.std.specs.Prelude.{◌≡◌, true, length};
ghost use Rattle.std.specs.List.{list_all};
ghost use Rattle.rules.specs.Sources.{Lawful};
ghost use Rattle.rules.specs.SourceLaws.{lawful_prop};
ghost use Rattle.rules.specs.Books.{clause_fits, clause_book};
ghost use Rattle.rules.specs.Rows.{ended, rows};
ghost use Rattle.rules.specs.Drafts.{unless};
ghost use Rattle.rules.specs.RowBuffers.{content};

use crate::row_buffer::RowBuffer;

/// A book of clauses that is being filled, over lent words.
///
/// A clause is a row of its literals, repeats dropped: it takes a word for each of them, and one more.
#[derive(Drop)]
pub struct ClauseBook<'a> {
    buffer: RowBuffer<'a>,
    count: usize,
    ghost fit: { list_all (clause_fits buffer.variables) (content buffer).standing ≡ true },
    ghost drafted: { unless buffer.fault (clause_fits buffer.variables) (content buffer).draft ≡ true },
    ghost counted: { count ≡ length (content buffer).standing },
}

/// A book of clauses that has been filled. Nothing can be added to it any more; it answers questions, and is a lawful source.
#[derive(Clone, Copy)]
pub struct SealedClauses<'a> {
    words: &'a [i32],
    variables: u32,
    ghost ends: { ended words.now ≡ true },
    ghost fits: { list_all (clause_fits variables) (rows words.now) ≡ true },
    ghost lawful: { Lawful (clause_book variables (rows words.now)) } by { lawful_prop (clause_book variables (rows words.now)) },
}
