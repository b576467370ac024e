//! What `decide` answers to a rule file.
//!
//! A file that is refused gives its fault. Any other is searched, and gives the verdict, the values of a model, and the report of
//! the run. An answer prints as the lines that `decide` writes.
#![tactic(auto)]

ghost use Rattle.answer.specs.Answers.{answer_text, Promised};

pub mod answers;
pub mod model;
mod reading;
mod searching;

use crate::answers::Answer;
pub use crate::reading::MOST_BYTES;
use crate::reading::{CLAUSE_WORDS, GROUP_WORDS, read_rules};
use crate::searching::search;
use rules::clauses::ClauseBook;
use rules::groups::GroupBook;
use rules::join::Join;

/// Decides the rules of a file, of which these are the bytes.
pub fn decide(text: &[u8]) -> Answer
    ensures { Promised text.now (answer_text result) }
{
    let mut clause_words = [0; CLAUSE_WORDS];
    let mut clauses = ClauseBook::open(&mut clause_words, 0);
    let mut group_words = [0; GROUP_WORDS];
    let mut groups = GroupBook::open(&mut group_words, 0);
    match read_rules(text, &mut clauses, &mut groups) {
        Err(fault) => Answer::Refused(fault),
        Ok(()) => search(&Join {
            first: &clauses.seal(),
            second: &groups.seal(),
        }),
    }
}
