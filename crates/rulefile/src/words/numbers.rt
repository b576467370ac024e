//! How numbers are spelled.
ghost use Rattle.std.specs.Prelude.{◌≡◌, ◌^◌, ◌<◌, ◌≤◌, true, length, IfOk};
ghost use Rattle.std.specs.Char.{is_ascii_digit};
ghost use Rattle.std.specs.List.{list_all};
ghost use Rattle.std.specs.Str.{all_ascii_digits};
ghost use Rattle.rulefile.specs.Numbers.{value_from, natural, number_of};

use crate::words::Misspelling;

/// Whether all bytes are digits.
// A function of its own: written where it is called, the proof of its caller needs an answer for each case.
fn all_digits(bytes: &[u8]) -> bool
    ensures { result ≡ list_all is_ascii_digit bytes.now }
{
    bytes.iter().all(u8::is_ascii_digit)
}

/// The number that at most nine digits write.
fn value(digits: &[u8]) -> u32
    requires digits { all_ascii_digits digits.now ≡ true }
    requires short { length digits.now ≤ 9 }
    ensures value { result ≡ value_from 0 digits.now }
    ensures bound { result < 10 ^ 9 }
{
    digits
        .iter()
        .fold(0, |n, digit| n * 10 + u32::from(*digit - b'0'))
}

/// The number that digits write: at most nine, the first not 0.
#[tactic(auto, using(crate::proofs::NumberLaws::digits_each))]
fn read_natural(digits: &[u8]) -> Result<u32, Misspelling>
    ensures value { result ≡ natural digits.now }
    ensures bound { IfOk result (λ n. n < 10 ^ 9) }
{
    match digits {
        [] | [b'0', ..] => Err(Misspelling::Spelling),
        _ if !all_digits(digits) => Err(Misspelling::Spelling),
        _ if digits.len() > 9 => Err(Misspelling::Length),
        _ => Ok(value(digits)),
    }
}

/// The number that a word writes: 0, or at most nine digits, the first not 0, with or without a minus before them.
pub(crate) fn read_number(word: &[u8]) -> Result<i32, Misspelling>
    ensures { result ≡ number_of word.now }
{
    match word {
        [b'0'] => Ok(0),
        [b'-', digits @ ..] => Ok(-(read_natural(digits)? as i32)),
        _ => Ok(read_natural(word)? as i32),
    }
}
