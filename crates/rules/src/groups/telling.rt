//! What a sealed book of groups tells.
ghost use Rattle.std.specs.Prelude.{◌≡◌, ◌+◌, ◌^◌, ◌<◌, true, map, length, take, neg_ℤ, slice_set};
ghost use Rattle.rules.specs.Sources.{true_in, Answer.tells, page_after};
ghost use Rattle.rules.specs.GroupRows.{as_group, group_row_fits};
ghost use Rattle.rules.specs.GroupTelling.{sealed_groups, group_in, group_status, group_clause, group_answer, first_of_value};

use crate::groups::{GroupRow, SealedGroups};
use crate::literal::{Value, value_of};
use crate::source::{Source, valuation};
use crate::status::ClauseStatus;

/// Writes the word into the room, where that has a place for it.
// By index: once what `get_mut` lends of a slice is written, no more than the slice's length is known.
fn put(room: &mut [i32], at: usize, word: i32)
    ensures { room.new ≡ slice_set room.old at word }
{
    if at < room.len() {
        room[at] = word;
    }
}

impl<'a> GroupRow<'a> {
    /// Takes the row of a group apart.
    // By length: with `split_last` or a pattern there is a case for a row of no words, which no row is.
    fn of(row: &'a [i32]) -> GroupRow<'a>
        requires { group_row_fits 1000 row.now ≡ true }
        ensures { group_in result ≡ as_group row.now }
    {
        let last = row.len() - 1;
        GroupRow {
            literals: &row[..last],
            limit: row[last].unsigned_abs() as usize - 1,
        }
    }

    /// How the clause that the group tells stands: falsified where more of the literals are true than may be, unit where
    /// just as many as may be are true and some are unassigned.
    fn status(&self, valuation: &[i32]) -> ClauseStatus
        ensures { result ≡ group_status (true_in valuation.now) (group_in self.now) }
    {
        let holding = self
            .literals
            .iter()
            .filter(|literal| value_of(**literal, valuation) == Value::True)
            .count();
        if holding > self.limit {
            ClauseStatus::Falsified
        } else if holding == self.limit
            && self.literals.iter().any(|literal| value_of(*literal, valuation)
                == Value::Unassigned)
        {
            ClauseStatus::Unit
        } else {
            ClauseStatus::Other
        }
    }

    /// Lays the negations of the first `most` literals of that value into the room, behind the `len` words that the clause
    /// has. Answers how many it has then.
    fn lay(
        &self,
        value: Value,
        valuation: &[i32],
        room: &mut [i32],
        len: usize,
        most: usize,
    ) -> usize
        requires counts { len + most < 2 ^ 64 }
        ensures count { result ≡ len + length (first_of_value (true_in valuation.now) value most self.now.literals.now) }
        ensures room { room.new ≡ page_after len (tells (map neg_ℤ (first_of_value (true_in valuation.now) value most self.now.literals.now))) room.old }
    {
        let mut now = len;
        let told = self
            .literals
            .iter()
            .filter(|literal| value_of(**literal, valuation) == value)
            .take(most);
        // By a loop that counts: the number is the answer, also where the room ends earlier, and each turn writes to the room.
        for literal in told {
            let negation = -*literal;
            put(room, now, negation);
            now += 1;
        }
        now
    }

    /// Tells for the group: the negations of its first limit + 1 true literals or, where there are fewer,
    /// of its true literals and of its first unassigned one.
    fn tell(&self, page: &mut [i32], variables: u32) -> usize
        ensures count { result ≡ length (group_clause (true_in (take variables page.old)) (group_in self.now)) }
        ensures page { page.new ≡ page_after variables (tells (group_clause (true_in (take variables page.old)) (group_in self.now))) page.old }
    {
        let (values, room) = page.split_at_mut(valuation(page, variables).len());
        let len = self.lay(Value::True, values, room, 0, self.limit + 1);
        if len > self.limit {
            return len;
        }
        self.lay(Value::Unassigned, values, room, len, 1)
    }
}

impl SealedGroups<'_> {
    /// The first group that is over its limit, or else the first that is at its limit with a literal unassigned.
    fn first_asserting(&self, valuation: &[i32]) -> Option<GroupRow<'_>>
        ensures { group_answer (true_in valuation.now) result ≡ (sealed_groups self.now).answer valuation.now }
    {
        // Not one function with the clause book's search, which has its loop over literals within its loop over clauses.
        let mut found = None;
        for words in self.words.split_inclusive(|word| *word == 0) {
            let group = GroupRow::of(&words[..words.len() - 1]);
            match group.status(valuation) {
                ClauseStatus::Falsified => return Some(group),
                ClauseStatus::Unit => found = found.or(Some(group)),
                ClauseStatus::Other => {}
            }
        }
        found
    }
}

impl Source for SealedGroups<'_> {
    ghost meaning = { sealed_groups };

    ghost lawful = { λ book. book.lawful };

    fn variables(&self) -> u32 {
        self.variables
    }

    fn question(&self, page: &mut [i32]) -> Option<usize> {
        let group = self.first_asserting(valuation(page, self.variables))?;
        Some(group.tell(page, self.variables))
    }
}
