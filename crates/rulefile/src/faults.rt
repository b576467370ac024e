//! Faults of a rule file. Each layer has its own, and carries the one below it whole.
ghost use Rattle.std.specs.Prelude.{◌≡◌, Some};
ghost use Rattle.rulefile.specs.Faults.{word_fault, form_fault, book_fault, misspelling_number, misfit_number, layer_number, named, fault_text};
ghost use Rattle.rulefile.specs.declared.faults.FormFault.TheVariants as form;
ghost use Rattle.rulefile.specs.declared.faults.BookFault.TheVariants as book;

use crate::words::{Misspelling, Position, WordFault};
use rules::refusal::Refusal;
use std::fmt;

/// How a word, or the text's end, does not fit the form.
#[derive(Clone, Copy, PartialEq, Eq, Debug)]
pub enum Misfit {
    /// The word is not allowed here.
    NotAllowed = 10,
    /// The number is above its limit.
    TooLarge = 11,
    /// A clause more than there should be begins, or the text ends with fewer.
    Count = 12,
    /// The text ends before or in the head, in a clause or in a group.
    Ends = 13,
}

/// A fault of the words, or of the form.
#[derive(Clone, Copy, PartialEq, Eq, Debug)]
pub enum FormFault {
    Word(WordFault),
    Form(Misfit, Position),
}

/// A fault of the form, or a book's refusal of the rule that begins at the position.
#[derive(Clone, Copy, PartialEq, Eq, Debug)]
pub enum BookFault {
    Form(FormFault),
    Book(Refusal, Position),
}

impl From<WordFault> for FormFault {
    ghost from_gives = { λ f r. r ≡ form.Word f };

    fn from(word: WordFault) -> FormFault {
        FormFault::Word(word)
    }
}

impl From<FormFault> for BookFault {
    ghost from_gives = { λ f r. r ≡ book.Form f };

    fn from(form: FormFault) -> BookFault {
        BookFault::Form(form)
    }
}

/// The layers, from below.
#[derive(Clone, Copy, PartialEq, Eq, Debug)]
pub enum Layer {
    Words = 1,
    Form = 2,
    Books = 3,
    /// A program that reads rule files.
    Program = 4,
}

/// What is told of a fault: its number, the layer that found it, and where it stands.
#[derive(Clone, Copy, PartialEq, Eq, Debug)]
pub struct Fault {
    pub number: u8,
    pub layer: Layer,
    pub at: Position,
}

impl From<Misspelling> for u8 {
    ghost from_gives = { λ kind number. number ≡ misspelling_number kind };

    fn from(kind: Misspelling) -> u8 {
        kind as u8
    }
}

impl From<Misfit> for u8 {
    ghost from_gives = { λ kind number. number ≡ misfit_number kind };

    fn from(kind: Misfit) -> u8 {
        kind as u8
    }
}

impl From<Layer> for u8 {
    ghost from_gives = { λ layer number. number ≡ layer_number layer };

    fn from(layer: Layer) -> u8 {
        layer as u8
    }
}

impl From<WordFault> for Fault {
    ghost from_gives = { λ f r. named r ≡ word_fault f };

    fn from(word: WordFault) -> Fault {
        Fault {
            number: word.kind.into(),
            layer: Layer::Words,
            at: word.at,
        }
    }
}

impl From<FormFault> for Fault {
    ghost from_gives = { λ f r. named r ≡ form_fault f };

    fn from(form: FormFault) -> Fault {
        match form {
            FormFault::Word(fault) => fault.into(),
            FormFault::Form(kind, at) => Fault {
                number: kind.into(),
                layer: Layer::Form,
                at,
            },
        }
    }
}

impl From<BookFault> for Fault {
    ghost from_gives = { λ f r. named r ≡ book_fault f };

    fn from(book: BookFault) -> Fault {
        match book {
            BookFault::Form(fault) => fault.into(),
            BookFault::Book(refusal, at) => Fault {
                number: refusal.into(),
                layer: Layer::Books,
                at,
            },
        }
    }
}

/// Prints number, layer, line and place, with a space between each two.
impl fmt::Display for Fault {
    ghost output = { λ f. Some (fault_text (named f)) };

    fn fmt<W: fmt::Write>(&self, f: &mut fmt::Formatter<W>) -> fmt::Result {
        write!(
            f,
            "{} {} {} {}",
            self.number,
            u8::from(self.layer),
            self.at.line,
            self.at.place
        )
    }
}
