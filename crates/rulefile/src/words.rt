//! Words of a lent text.
mod numbers;
mod reading;

ghost use Rattle.std.specs.Prelude.{◌+◌, ◌≤◌, length};

/// Where something stands in the text: its line, from 1, and its place in bytes, from 0.
#[derive(Clone, Copy, PartialEq, Eq, Debug)]
pub struct Position {
    pub line: usize,
    pub place: usize,
}

/// A part of the text, and where it stands.
#[derive(Clone, Copy)]
pub struct Word<'a> {
    pub text: &'a [u8],
    pub at: Position,
}

/// What comes next in the text.
#[derive(Clone, Copy)]
pub enum Token<'a> {
    /// A number, with its value.
    Number(Word<'a>, i32),
    /// Any other word.
    Other(Word<'a>),
    /// The end of the text.
    End(Position),
}

/// What is wrong with a word that begins as a number does.
#[derive(Clone, Copy, PartialEq, Eq, Debug)]
pub enum Misspelling {
    /// It is not spelled as a number.
    Spelling = 10,
    /// It has more than nine digits.
    Length = 11,
}

/// A word that begins as a number does and is none.
#[derive(Clone, Copy, PartialEq, Eq, Debug)]
pub struct WordFault {
    pub kind: Misspelling,
    pub at: Position,
}

/// How far a gap between words has come.
#[derive(Clone, Copy)]
pub enum Mode {
    /// A line begins.
    Fresh,
    /// Within a line that is no comment.
    Inside,
    /// Within a comment.
    Comment,
}

/// Goes over a text, word by word.
#[derive(Drop)]
pub struct Reader<'a> {
    text: &'a [u8],
    at: Position,
    mode: Mode,
    ghost inside: { at.place ≤ length text.now },
    ghost counted: { at.line ≤ at.place + 1 },
}
