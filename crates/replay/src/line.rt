//! Reading a line of a script.
use crate::script::{Call, Choice, Lending, Mistake};
use crate::weighing::Weighing;
use std::alloc::{AllocError, Global};
use std::num::{IntErrorKind, TryFromIntError};
use std::{slice, str};
use weights::scales::{Plain, Ranked};

/// The most words, or bytes of scratch, that are lent.
const MOST_LENT: i64 = 16_777_216;

/// Why no call was read.
#[derive(Clone, Copy, Debug)]
pub enum Unread {
    Mistake(Mistake),
    OutOfMemory,
}

impl From<Mistake> for Unread {
    fn from(mistake: Mistake) -> Unread {
        Unread::Mistake(mistake)
    }
}

impl From<AllocError> for Unread {
    fn from(_error: AllocError) -> Unread {
        Unread::OutOfMemory
    }
}

/// The call that the line says; nothing where it has no word before its comment.
pub(crate) fn read(alloc: Global, line: &[u8]) -> Result<Option<Call>, Unread> {
    let said = line.split(|byte| *byte == b'#').next().unwrap_or(line);
    let text = str::from_utf8(said).map_err(|_| Mistake::NotText)?;
    let words = text
        .split([' ', '\t', '\r'])
        .filter(|word| !word.is_empty())
        .collect::<Vec<&str>>(alloc)?;
    let Some((name, rest)) = words.split_first() else {
        return Ok(None);
    };
    let mut arguments = Arguments {
        alloc,
        words: rest.iter(),
    };
    let call = call_of(name, &mut arguments)?;
    arguments.end()?;
    Ok(Some(call))
}

/// The call of this name.
fn call_of(name: &str, arguments: &mut Arguments) -> Result<Call, Unread> {
    Ok(match name {
        "clausebook" => Call::ClauseBook {
            lending: arguments.lending()?,
        },
        "clause" => Call::Clause {
            literals: arguments.literals()?,
        },
        "groupbook" => Call::GroupBook {
            lending: arguments.lending()?,
        },
        "group" => Call::Group {
            limit: arguments.number()?,
            literals: arguments.literals()?,
        },
        "source" => Call::Source {
            choice: arguments.choice()?,
        },
        "fits" => Call::Fits {
            lending: arguments.lending()?,
            slots: arguments.number()?,
        },
        "prefer" => Call::Prefer {
            literals: arguments.literals()?,
        },
        "weigh" => Call::Weigh {
            weighing: arguments.weighing()?,
        },
        _ => session_call(name, arguments)?,
    })
}

/// The call of a session of this name.
fn session_call(name: &str, arguments: &mut Arguments) -> Result<Call, Unread> {
    Ok(match name {
        "open" => Call::Open {
            lending: arguments.lending()?,
            slots: arguments.number()?,
        },
        "assume" => Call::Assume {
            literal: arguments.number()?,
        },
        "clear" => Call::Clear,
        "begin" => Call::Begin,
        "run" => Call::Run {
            limit: arguments.number()?,
            scratch: arguments.scratch()?,
        },
        "settle" => Call::Settle,
        "value" => Call::Value {
            variable: arguments.number()?,
        },
        "named" => Call::Named {
            literal: arguments.number()?,
        },
        "reopen" => Call::Reopen,
        "close" => Call::Close,
        _ => return Err(Unread::Mistake(Mistake::UnknownCall)),
    })
}

/// The whole number that a word says.
fn whole_of(word: &str) -> Result<i64, Mistake> {
    word.parse::<i64>().map_err(|error| match error.kind() {
        IntErrorKind::PosOverflow | IntErrorKind::NegOverflow => Mistake::OutOfRange,
        _ => Mistake::NoNumber,
    })
}

/// The number of 32 bits that a word says.
fn number_of<N: TryFrom<i64, Error = TryFromIntError>>(word: &str) -> Result<N, Mistake> {
    N::try_from(whole_of(word)?).map_err(|_| Mistake::OutOfRange)
}

/// The words of a line that are still to be read.
#[derive(Drop)]
struct Arguments<'w, 'a> {
    alloc: Global,
    words: slice::Iter<'w, &'a str>,
}

impl<'a> Arguments<'_, 'a> {
    /// The next word.
    fn word(&mut self) -> Result<&'a str, Mistake> {
        self.words.next().copied().ok_or(Mistake::MissingWord)
    }

    fn number<N: TryFrom<i64, Error = TryFromIntError>>(&mut self) -> Result<N, Mistake> {
        number_of(self.word()?)
    }

    /// How many words or bytes are to be lent; nothing where the number is below 0.
    fn lent(&mut self) -> Result<Option<usize>, Mistake> {
        let count = whole_of(self.word()?)?;
        if count > MOST_LENT {
            return Err(Mistake::TooMuch);
        }
        Ok(usize::try_from(count).ok())
    }

    fn lending(&mut self) -> Result<Lending, Mistake> {
        Ok(Lending {
            words: self.lent()?,
            variables: self.number()?,
        })
    }

    fn scratch(&mut self) -> Result<usize, Mistake> {
        self.lent()?.ok_or(Mistake::OutOfRange)
    }

    fn choice(&mut self) -> Result<Choice, Mistake> {
        match self.word()? {
            "clause" => Ok(Choice::Clauses),
            "group" => Ok(Choice::Groups),
            "join" => match (self.word()?, self.word()?) {
                ("clause", "group") => Ok(Choice::ClausesFirst),
                ("group", "clause") => Ok(Choice::GroupsFirst),
                _ => Err(Mistake::UnknownSource),
            },
            _ => Err(Mistake::UnknownSource),
        }
    }

    fn weighing(&mut self) -> Result<Weighing, Unread> {
        match self.word()? {
            "standing" => Ok(Weighing::Standing),
            "plain" => Ok(Weighing::Plain(self.plain()?)),
            "ranked" => Ok(Weighing::Ranked(self.ranked()?)),
            _ => Err(Unread::Mistake(Mistake::UnknownWeigher)),
        }
    }

    /// All words that are left, as literals.
    fn literals(&mut self) -> Result<Vec<i32>, Unread> {
        self.words
            .by_ref()
            .map(|word| Ok(number_of(word)?))
            .try_collect(self.alloc)
    }

    /// All words that are left, as weights.
    fn plain(&mut self) -> Result<Vec<Plain>, Unread> {
        self.words
            .by_ref()
            .map(|word| Ok(Plain(number_of(word)?)))
            .try_collect(self.alloc)
    }

    /// All words that are left, by pairs, as weights.
    fn ranked(&mut self) -> Result<Vec<Ranked>, Unread> {
        self.plain()?
            .chunks(2)
            .map(|parts| Ok(ranked_of(parts)?))
            .try_collect(self.alloc)
    }

    /// That no word is left.
    fn end(&self) -> Result<(), Mistake> {
        if self.words.len() == 0 {
            Ok(())
        } else {
            Err(Mistake::ExtraWord)
        }
    }
}

/// The ranked weight of two parts.
fn ranked_of(parts: &[Plain]) -> Result<Ranked, Mistake> {
    match parts {
        [first, second] => Ok(Ranked {
            first: *first,
            second: *second,
        }),
        _ => Err(Mistake::HalfWeight),
    }
}
