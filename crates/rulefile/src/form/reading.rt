//! Reading the parts of a rule file.
ghost use Rattle.std.specs.Prelude.{◌≡◌};
ghost use Rattle.rulefile.specs.Ahead.{ahead};
ghost use Rattle.rulefile.specs.Words.{left_after};
ghost use Rattle.rulefile.specs.Form.{taken, number_next, natural_next, count_next, word_next, opening, opening_left, start_next};

use crate::faults::{FormFault, Misfit};
use crate::form::{Number, Start};
use crate::words::{Reader, Token, Word};

/// The most variables of a file.
const MOST_VARIABLES: u32 = 1_000;

/// The most clauses of a file.
const MOST_CLAUSES: u32 = 65_535;

/// A number.
pub(crate) fn next_number(reader: &mut Reader<'_>) -> Result<Number<i32>, FormFault>
    ensures taken { number_next (ahead reader.old) ≡ taken result (ahead reader.new) }
    ensures left { ahead reader.new ≡ left_after (ahead reader.old) }
{
    match reader.next()? {
        Token::Number(word, value) => Ok(Number { value, at: word.at }),
        Token::Other(word) => Err(FormFault::Form(Misfit::NotAllowed, word.at)),
        Token::End(at) => Err(FormFault::Form(Misfit::Ends, at)),
    }
}

/// A number without a minus.
pub(crate) fn next_natural(reader: &mut Reader<'_>) -> Result<Number<u32>, FormFault>
    ensures taken { natural_next (ahead reader.old) ≡ taken result (ahead reader.new) }
    ensures left { ahead reader.new ≡ left_after (ahead reader.old) }
{
    let Number { value, at } = next_number(reader)?;
    let value = u32::try_from(value).map_err(|_| FormFault::Form(Misfit::NotAllowed, at))?;
    Ok(Number { value, at })
}

/// A number without a minus, and at most `most`.
fn next_count(reader: &mut Reader<'_>, most: u32) -> Result<Number<u32>, FormFault>
    ensures taken { count_next most (ahead reader.old) ≡ taken result (ahead reader.new) }
    ensures left { ahead reader.new ≡ left_after (ahead reader.old) }
{
    let count = next_natural(reader)?;
    if count.value > most {
        return Err(FormFault::Form(Misfit::TooLarge, count.at));
    }
    Ok(count)
}

/// The word that has to stand here.
fn next_word(reader: &mut Reader<'_>, key: &[u8]) -> Result<(), FormFault>
    ensures taken { word_next key.now (ahead reader.old) ≡ taken result (ahead reader.new) }
    ensures left { ahead reader.new ≡ left_after (ahead reader.old) }
{
    match reader.next()? {
        Token::Other(word) if word.text == key => Ok(()),
        Token::Other(word) | Token::Number(word, _) => {
            Err(FormFault::Form(Misfit::NotAllowed, word.at))
        }
        Token::End(at) => Err(FormFault::Form(Misfit::Ends, at)),
    }
}

/// The head of a file up to the number of variables: the words `p` and `cnf`, and the number.
pub fn read_variables(reader: &mut Reader<'_>) -> Result<Number<u32>, FormFault>
    ensures taken { opening (ahead reader.old) ≡ taken result (ahead reader.new) }
    ensures left { ahead reader.new ≡ opening_left (ahead reader.old) }
{
    next_word(reader, b"p")?;
    next_word(reader, b"cnf")?;
    next_count(reader, MOST_VARIABLES)
}

/// The number of clauses.
pub(crate) fn read_count(reader: &mut Reader<'_>) -> Result<Number<u32>, FormFault>
    ensures { count_next 65535 (ahead reader.old) ≡ taken result (ahead reader.new) }
{
    next_count(reader, MOST_CLAUSES)
}

/// What begins between rules, where `left` clauses are to come; or nothing, where the text ends.
pub(crate) fn next_start(reader: &mut Reader<'_>, left: u32) -> Result<Option<Start>, FormFault>
    ensures { start_next left (ahead reader.old) ≡ taken result (ahead reader.new) }
{
    match reader.next()? {
        Token::Number(word, _) if left == 0 => Err(FormFault::Form(Misfit::Count, word.at)),
        Token::Number(word, value) => Ok(Some(Start::Clause(Number { value, at: word.at }))),
        Token::Other(Word { text: [b'a'], at }) => Ok(Some(Start::Group(at))),
        Token::Other(word) => Err(FormFault::Form(Misfit::NotAllowed, word.at)),
        Token::End(at) if left > 0 => Err(FormFault::Form(Misfit::Count, at)),
        Token::End(_) => Ok(None),
    }
}
