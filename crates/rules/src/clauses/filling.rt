//! Filling a book of clauses.
ghost use Rattle.std.specs.Prelude.{◌≡◌, length, replicate, pos};
ghost use Rattle.rules.specs.Rows.{rows};
ghost use Rattle.rules.specs.Drafts.{book_count};
ghost use Rattle.rules.specs.ClauseFilling.{Filling, filling, all_words, empty, pushed, no_place, ending, settled, once, answer_to, pushed_size};

use crate::book::{Book, push_all};
use crate::clauses::{ClauseBook, SealedClauses};
use crate::literal::is_in_range;
use crate::refusal::Refusal;
use crate::row_buffer::RowBuffer;

/// The most clauses that a book takes.
const MOST_CLAUSES: usize = 65_535;

// Not one generic book: what is alike in both is `RowBuffer`; of each call only a few lines are left, and this kind counts its clauses.
impl<'a> ClauseBook<'a> {
    /// An empty book of so many variables over all the words, which become 0. More than 1,000 variables count as none.
    pub fn open(words: &'a mut [i32], variables: u32) -> ClauseBook<'a>
        ensures { filling result ≡ empty (book_count variables) (length words.old) }
    {
        ClauseBook {
            buffer: RowBuffer::open(words, variables),
            count: 0,
        }
    }

    /// Empties the book, for so many variables: no clause stands, and all its words are 0.
    pub fn reset(&mut self, variables: u32)
        ensures book { filling self.new ≡ empty (book_count variables) (filling self.old).size }
        ensures words { self.new.buffer.words.now ≡ replicate (length self.old.buffer.words.now) (pos 0) }
    {
        self.buffer.reset(variables);
        self.count = 0;
    }

    /// Whether the clause that is being written has no place in the book.
    fn lacks_place(&self) -> bool
        ensures { result ≡ no_place (filling self.now) (length (filling self.now).draft) }
    {
        self.buffer.free() == 0 || MOST_CLAUSES <= self.count
    }

    /// Ends the clause that is being written: it joins the book, or it is refused and dropped.
    pub fn end(&mut self) -> Result<(), Refusal>
        ensures answer { result ≡ ending (filling self.old) }
        ensures after { filling self.new ≡ settled (filling self.old) (filling self.old).draft result }
    {
        let full = self.lacks_place();
        self.buffer.admit(full)?;
        self.buffer.join();
        self.count += 1;
        Ok(())
    }

    /// Adds a clause. One that is being written is dropped first.
    pub fn add(&mut self, literals: &[i32]) -> Result<(), Refusal>
        ensures answer { result ≡ answer_to (filling self.old) literals.now }
        ensures after { filling self.new ≡ settled (filling self.old) (once literals.now) result }
    {
        self.buffer.take_back();
        push_all(self, literals);
        self.end()
    }

    /// The book's words.
    pub fn words(&self) -> &[i32]
        ensures { result.now ≡ all_words (filling self.now) }
    {
        self.buffer.words()
    }

    /// Seals the book: it takes no more clauses, and answers questions. A clause that is being written is dropped.
    pub fn seal(self) -> SealedClauses<'a>
        ensures variables { result.variables ≡ (filling self.entry).variables }
        ensures clauses { rows result.words.now ≡ (filling self.entry).clauses }
    {
        let ClauseBook { buffer, count: _ } = self;
        let variables = buffer.variables;
        SealedClauses {
            words: buffer.into_rows().0,
            variables,
        }
    }
}

impl Book for ClauseBook<'_> {
    ghost Filling = { Filling };

    ghost filling = { filling };

    ghost pushed = { pushed };

    ghost size = { λ b. b.size };

    ghost keeps_size = { pushed_size };

    /// Adds one literal to the clause that is being written. One that it has is dropped.
    fn push(&mut self, literal: i32) {
        if !is_in_range(literal, self.buffer.variables) {
            self.buffer.fault = Some(Refusal::NoVariable);
        } else if self.buffer.fault.is_none() && !self.buffer.has(literal) {
            self.buffer.push(literal);
        }
    }
}
