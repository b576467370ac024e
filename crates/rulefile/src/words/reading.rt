//! Going over a text, word by word.
ghost use Rattle.std.specs.Prelude.{◌≡◌, ◌+◌, ◌<◌, ◌≤◌, false, length, drop, All, slice_index};
ghost use Rattle.rulefile.specs.Words.{is_gap, passed, gap, spot, run, seen, word_seen, seen_in, took, left_after};
ghost use Rattle.rulefile.specs.Ahead.{ahead};
ghost use Rattle.rulefile.specs.Numbers.{WrittenAsPrinted, NineDigits, PrintedIsRead};
ghost use Rattle.rulefile.specs.Places.{Shows};
ghost use Rattle.rulefile.specs.Parts.{Whole};

use crate::bytes::{Class, class_of};
use crate::words::numbers::read_number;
use crate::words::{Mode, Position, Reader, Token, Word, WordFault};

impl<'a> Reader<'a> {
    /// A reader at the start of the text.
    pub fn new(text: &'a [u8]) -> Reader<'a>
        ensures ahead { ahead result ≡ seen_in text.now }
        ensures parts { All (Shows text.now) (seen_in text.now) }
        ensures numbers { WrittenAsPrinted × NineDigits × PrintedIsRead }
        ensures whole { Whole text.now (seen_in text.now) }
    {
        Reader {
            text,
            at: Position { line: 1, place: 0 },
            mode: Mode::Fresh,
        }
    }

    /// The next word, or the end, which comes again and again.
    pub fn next(&mut self) -> Result<Token<'a>, WordFault>
        ensures ahead { ahead self.old ≡ took (seen result) (ahead self.new) }
        ensures left { ahead self.new ≡ left_after (ahead self.old) }
    {
        self.skip_gap();
        let at = self.at;
        let rest = &self.text[at.place..];
        if rest.is_empty() {
            return Ok(Token::End(at));
        }
        let word = &rest[..run_length(rest)];
        self.at.place += word.len();
        self.mode = Mode::Inside;
        token(Word { text: word, at })
    }

    /// Goes to where the next word begins, or to the text's end.
    fn skip_gap(&mut self)
        ensures stops { self.new.at.place < length self.new.text.now → is_gap (slice_index self.new.text.now self.new.at.place) ≡ false }
        ensures spot { gap self.old.mode self.old.at.place self.old.at.line (drop self.old.at.place self.old.text.now) ≡ spot self.new.at.place self.new.at.line (drop self.new.at.place self.new.text.now) }
    {
        for byte in &self.text[self.at.place..] {
            let Some(mode) = pass(self.mode, *byte) else {
                return;
            };
            self.mode = mode;
            self.at.place += 1;
            if *byte == b'\n' {
                self.at.line += 1;
            }
        }
    }
}

/// A word as a token: its first byte says whether it is meant as a number.
fn token(word: Word<'_>) -> Result<Token<'_>, WordFault>
    ensures { seen result ≡ word_seen word.entry.text.now word.entry.at }
{
    match word.text {
        [first, ..] if matches!(class_of(*first), Class::Digit | Class::Minus) => {
            let value = read_number(word.text).map_err(|kind| WordFault { kind, at: word.at })?;
            Ok(Token::Number(word, value))
        }
        _ => Ok(Token::Other(word)),
    }
}

/// Whether the byte stands between words.
fn is_gap(byte: u8) -> bool
    ensures { result ≡ is_gap byte }
{
    matches!(class_of(byte), Class::Blank | Class::LineEnd)
}

/// How many bytes at the front are of a word.
fn run_length(bytes: &[u8]) -> usize
    ensures within { result ≤ length bytes.now }
    ensures value { result ≡ run bytes.now }
{
    bytes
        .iter()
        .position(|byte| is_gap(*byte))
        .unwrap_or(bytes.len())
}

/// How a gap goes on after the byte, or none where a word begins.
fn pass(mode: Mode, byte: u8) -> Option<Mode>
    ensures { result ≡ passed mode byte }
{
    match (mode, class_of(byte)) {
        (_, Class::LineEnd) => Some(Mode::Fresh),
        (Mode::Comment, _) => Some(Mode::Comment),
        (_, Class::Blank) => Some(Mode::Inside),
        (Mode::Fresh, Class::Other) if byte == b'c' => Some(Mode::Comment),
        _ => None,
    }
}
