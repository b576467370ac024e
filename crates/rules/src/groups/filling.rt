//! Filling a book of groups.
ghost use Rattle.std.specs.Prelude.{◌≡◌, ◌+◌, map, length, replicate, pos};
ghost use Rattle.rules.specs.Rows.{rows};
ghost use Rattle.rules.specs.Drafts.{book_count};
ghost use Rattle.rules.specs.GroupRows.{as_group};
ghost use Rattle.rules.specs.GroupFilling.{Filling, filling, all_words, empty, clean, pushed, no_place, ending, most_of, group_of, settled, answer_to, pushed_size};

use crate::book::{Book, push_all};
use crate::groups::{GroupBook, SealedGroups};
use crate::literal::is_in_range;
use crate::refusal::Refusal;
use crate::row_buffer::RowBuffer;

/// The largest limit of a group.
const MOST_LIMIT: u32 = 999_999_999;

/// The word of a row that has the group's limit: one more, so that it is not 0.
fn limit_word(limit: u32) -> i32
    ensures { result ≡ pos (most_of limit + 1) }
{
    limit.min(MOST_LIMIT) as i32 + 1
}

// Not one generic book: what is alike in both is `RowBuffer`; of each call only a few lines are left, and this kind has a limit and
// rising variables.
impl<'a> GroupBook<'a> {
    /// An empty book of so many variables over all the words, which become 0. More than 1,000 variables count as none.
    pub fn open(words: &'a mut [i32], variables: u32) -> GroupBook<'a>
        ensures { filling result ≡ empty (book_count variables) (length words.old) }
    {
        GroupBook {
            buffer: RowBuffer::open(words, variables),
            last: 0,
        }
    }

    /// Empties the book, for so many variables: no group stands, and all its words are 0.
    pub fn reset(&mut self, variables: u32)
        ensures book { filling self.new ≡ empty (book_count variables) (filling self.old).size }
        ensures words { self.new.buffer.words.now ≡ replicate (length self.old.buffer.words.now) (pos 0) }
    {
        self.buffer.reset(variables);
        self.last = 0;
    }

    /// Drops the group that is being written.
    fn take_back(&mut self)
        ensures { filling self.new ≡ clean (filling self.old) }
    {
        self.buffer.take_back();
        self.last = 0;
    }

    /// Whether the group that is being written has no place in the book.
    fn lacks_place(&self) -> bool
        ensures { result ≡ no_place (filling self.now) (length (filling self.now).draft) }
    {
        self.buffer.free() < 2
    }

    /// Ends the group that is being written, with its limit: it joins the book, or it is refused and dropped.
    /// A limit above 999,999,999 counts as that.
    pub fn end(&mut self, limit: u32) -> Result<(), Refusal>
        ensures answer { result ≡ ending (filling self.old) }
        ensures after { filling self.new ≡ settled (filling self.old) (group_of limit (filling self.old).draft) result }
    {
        let full = self.lacks_place();
        self.last = 0;
        self.buffer.admit(full)?;
        self.buffer.push(limit_word(limit));
        self.buffer.join();
        Ok(())
    }

    /// Adds a group: at most `limit` of the literals are true. One that is being written is dropped first.
    pub fn add(&mut self, limit: u32, literals: &[i32]) -> Result<(), Refusal>
        ensures answer { result ≡ answer_to (filling self.old) literals.now }
        ensures after { filling self.new ≡ settled (filling self.old) (group_of limit literals.now) result }
    {
        self.take_back();
        push_all(self, literals);
        self.end(limit)
    }

    /// The book's words.
    pub fn words(&self) -> &[i32]
        ensures { result.now ≡ all_words (filling self.now) }
    {
        self.buffer.words()
    }

    /// Seals the book: it takes no more groups, and answers questions. A group that is being written is dropped.
    pub fn seal(self) -> SealedGroups<'a>
        ensures variables { result.variables ≡ (filling self.entry).variables }
        ensures groups { map as_group (rows result.words.now) ≡ (filling self.entry).groups }
    {
        let GroupBook { buffer, last: _ } = self;
        let variables = buffer.variables;
        SealedGroups {
            words: buffer.into_rows().0,
            variables,
        }
    }
}

impl Book for GroupBook<'_> {
    ghost Filling = { Filling };

    ghost filling = { filling };

    ghost pushed = { pushed };

    ghost size = { λ b. b.size };

    ghost keeps_size = { pushed_size };

    /// Adds one literal to the group that is being written. Its variable is to be above that of the literal before.
    fn push(&mut self, literal: i32) {
        let variable = literal.unsigned_abs();
        if !is_in_range(literal, self.buffer.variables) {
            self.buffer.fault = Some(Refusal::NoVariable);
        } else if self.last < variable {
            self.last = variable;
            self.buffer.push(literal);
        } else if self.buffer.fault != Some(Refusal::NoVariable) {
            self.buffer.fault = Some(Refusal::NotRising);
        }
    }
}
