//! Classes of bytes.
ghost use Rattle.std.specs.Prelude.{◌≡◌};
ghost use Rattle.rulefile.specs.Bytes.{class_of};

/// What a byte is in a rule file.
#[derive(Clone, Copy)]
pub enum Class {
    /// A space, a tab or a carriage return: it parts words.
    Blank,
    /// A line feed: it ends a line.
    LineEnd,
    /// One of `0` to `9`.
    Digit,
    /// The sign `-`.
    Minus,
    /// Any other byte.
    Other,
}

// Each class by the first letter of its name.
use Class::{Blank as B, Digit as D, LineEnd as L, Minus as M, Other as O};

/// The class of each byte, thirty-two to a row.
// A const would be built anew at each look-up, and take several times as long to check.
static CLASSES: [Class; 256] = [
    O, O, O, O, O, O, O, O, O, B, L, O, O, B, O, O, O, O, O, O, O, O, O, O, O, O, O, O, O, O, O, O,
    B, O, O, O, O, O, O, O, O, O, O, O, O, M, O, O, D, D, D, D, D, D, D, D, D, D, O, O, O, O, O, O,
    O, O, O, O, O, O, O, O, O, O, O, O, O, O, O, O, O, O, O, O, O, O, O, O, O, O, O, O, O, O, O, O,
    O, O, O, O, O, O, O, O, O, O, O, O, O, O, O, O, O, O, O, O, O, O, O, O, O, O, O, O, O, O, O, O,
    O, O, O, O, O, O, O, O, O, O, O, O, O, O, O, O, O, O, O, O, O, O, O, O, O, O, O, O, O, O, O, O,
    O, O, O, O, O, O, O, O, O, O, O, O, O, O, O, O, O, O, O, O, O, O, O, O, O, O, O, O, O, O, O, O,
    O, O, O, O, O, O, O, O, O, O, O, O, O, O, O, O, O, O, O, O, O, O, O, O, O, O, O, O, O, O, O, O,
    O, O, O, O, O, O, O, O, O, O, O, O, O, O, O, O, O, O, O, O, O, O, O, O, O, O, O, O, O, O, O, O,
];

/// The class of a byte.
pub fn class_of(byte: u8) -> Class
    ensures { result ≡ class_of byte }
{
    CLASSES[byte as usize]
}
