//! Filling a buffer of rows.
ghost use Rattle.std.specs.Prelude.{◌≡◌, ◌++◌, ◌<◌, true, false, length, replicate, pos};
ghost use Rattle.rules.specs.Literals.{has};
ghost use Rattle.rules.specs.Rows.{is_zero, ended, rows};
ghost use Rattle.rules.specs.Drafts.{book_count, reply};
ghost use Rattle.rules.specs.RowBuffers.{content, blank, cleared, free, pushed, admitted, joined, all_words};

use crate::literal::book_count;
use crate::refusal::Refusal;
use crate::row_buffer::RowBuffer;

impl<'a> RowBuffer<'a> {
    /// No row, for so many variables, over all the words, which become 0. More than 1,000 variables count as none.
    pub(crate) fn open(words: &'a mut [i32], variables: u32) -> RowBuffer<'a>
        ensures { content result ≡ blank (book_count variables) (length words.old) }
    {
        words.fill(0);
        let variables = book_count(variables);
        RowBuffer {
            words,
            variables,
            used: 0,
            len: 0,
            fault: None,
        }
    }

    /// Drops all rows, for so many variables: no row stands, and all the words are 0.
    pub(crate) fn reset(&mut self, variables: u32)
        ensures rows { content self.new ≡ blank (book_count variables) (content self.old).size }
        ensures words { self.new.words.now ≡ replicate (length self.old.words.now) (pos 0) }
    {
        let end = self.used + self.len;
        self.words[..end].fill(0);
        self.variables = book_count(variables);
        self.used = 0;
        self.len = 0;
        self.fault = None;
    }

    /// Whether the row that is being written has the word.
    pub(crate) fn has(&self, word: i32) -> bool
        ensures { result ≡ has (content self.now).draft word }
    {
        self.words[self.used..self.used + self.len].contains(&word)
    }

    /// How many words are behind the row that is being written.
    pub(crate) fn free(&self) -> usize
        ensures { result ≡ free (content self.now) }
    {
        self.words.len() - (self.used + self.len)
    }

    /// Adds a word to the row that is being written, where there is one free. A row that has earned a refusal stays as it is.
    pub(crate) fn push(&mut self, word: i32)
        requires { is_zero word ≡ false }
        ensures { content self.new ≡ pushed (content self.old) word }
    {
        if self.fault.is_some() {
            return;
        }
        if self.free() == 0 {
            self.fault = Some(Refusal::NoRoom);
            return;
        }
        self.words[self.used + self.len] = word;
        self.len += 1;
    }

    /// Drops the row that is being written.
    pub(crate) fn take_back(&mut self)
        ensures { content self.new ≡ cleared (content self.old) }
    {
        self.words[self.used..self.used + self.len].fill(0);
        self.len = 0;
        self.fault = None;
    }

    /// What the end of the row that is being written answers, where the book is full for it or not.
    fn reply(&self, full: bool) -> Result<(), Refusal>
        ensures { result ≡ reply (content self.now).fault full }
    {
        match self.fault {
            Some(refusal) => Err(refusal),
            None if full => Err(Refusal::NoRoom),
            None => Ok(()),
        }
    }

    /// Whether the row that is being written is taken, where the book is full for it or not. One that is refused is dropped.
    pub(crate) fn admit(&mut self, full: bool) -> Result<(), Refusal>
        ensures answer { result ≡ reply (content self.old).fault full }
        ensures after { content self.new ≡ admitted (content self.old) result }
    {
        let reply = self.reply(full);
        if reply.is_err() {
            self.take_back();
        }
        reply
    }

    /// Ends the row that is being written: it joins those that stand.
    pub(crate) fn join(&mut self)
        requires { 0 < free (content self.old) }
        ensures { content self.new ≡ joined (content self.old) }
    {
        self.used += self.len + 1;
        self.len = 0;
    }

    /// All the words.
    pub(crate) fn words(&self) -> &[i32]
        ensures { result.now ≡ all_words (content self.now) }
    {
        &self.words[..]
    }

    /// The words of the rows that stand, and those behind them.
    // Both, so that nothing can be written to the latter on the way.
    pub(crate) fn into_rows(self) -> (&'a [i32], &'a [i32])
        ensures ends { ended result.0.now ≡ true }
        ensures rows { rows result.0.now ≡ (content self.entry).standing }
        ensures words { result.0.now ++ result.1.now ≡ self.entry.words.now }
    {
        let RowBuffer {
            words,
            variables: _,
            used,
            len: _,
            fault: _,
        } = self;
        let words: &'a [i32] = words;
        words.split_at(used)
    }
}
