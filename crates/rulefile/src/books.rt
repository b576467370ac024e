//! Filling two books from a rule file.
ghost use Rattle.std.specs.Prelude.{◌≡◌, IfErr};
ghost use Rattle.rules.specs.ClauseFilling as clausebook;
ghost use Rattle.rules.specs.GroupFilling as groupbook;
ghost use Rattle.rulefile.specs.Ahead.{ahead};
ghost use Rattle.rulefile.specs.Form.{natural_next, literals_from};
ghost use Rattle.rulefile.specs.Words.{seen_in};
ghost use Rattle.rulefile.specs.Grammar.{Judged};
ghost use Rattle.rulefile.specs.Findings.{Found};
ghost use Rattle.rulefile.specs.Outcomes.{rules_in, between, books, fresh, filled, rest_outcome, outcome, told, failed, SameSizes, GivenUp, pushes, clause_read, group_read};

use crate::faults::{BookFault, FormFault};
use crate::form::reading::{next_natural, next_number, next_start, read_count, read_variables};
use crate::form::{Number, Start};
use crate::words::{Position, Reader};
use rules::book::Book;
use rules::clauses::ClauseBook;
use rules::groups::GroupBook;

/// Pushes the literals of a rule from its first number on, up to the 0 that ends it.
fn push_literals<B: Book>(
    reader: &mut Reader<'_>,
    book: &mut B,
    first: Number<i32>,
) -> Result<(), FormFault>
    ensures pushed { pushes B.pushed (B.filling book.old) (literals_from first.value (ahead reader.old)) ≡ told result (B.filling book.new, ahead reader.new) }
    ensures sized { B.size (B.filling book.new) ≡ B.size (B.filling book.old) }
{
    let mut number = first;
    while number.value != 0 {
        book.push(number.value);
        number = next_number(reader)?;
    }
    Ok(())
}

/// A clause, from its first number on.
// Nothing is being written in a book when a rule begins: `reset` leaves it so, and so does `end`. Literals that are pushed one by
// one join whatever is being written, so the rule's own contract has to ask for it.
fn read_clause(
    reader: &mut Reader<'_>,
    book: &mut ClauseBook<'_>,
    first: Number<i32>,
) -> Result<(), BookFault>
    requires { clausebook.clean (clausebook.filling book.old) ≡ clausebook.filling book.old }
    ensures read { clause_read (clausebook.filling book.old) first.at (literals_from first.value (ahead reader.old)) ≡ told result (clausebook.filling book.new, ahead reader.new) }
    ensures sized { (clausebook.filling book.new).size ≡ (clausebook.filling book.old).size }
{
    push_literals(reader, book, first)?;
    book.end()
        .map_err(|refusal| BookFault::Book(refusal, first.at))
}

/// A group, from its limit on; its `a` stands at the position.
fn read_group(
    reader: &mut Reader<'_>,
    book: &mut GroupBook<'_>,
    at: Position,
) -> Result<(), BookFault>
    requires { groupbook.clean (groupbook.filling book.old) ≡ groupbook.filling book.old }
    ensures read { group_read (groupbook.filling book.old) at (natural_next (ahead reader.old)) ≡ told result (groupbook.filling book.new, ahead reader.new) }
    ensures sized { (groupbook.filling book.new).size ≡ (groupbook.filling book.old).size }
{
    let limit = next_natural(reader)?;
    let first = next_number(reader)?;
    push_literals(reader, book, first)?;
    book.end(limit.value)
        .map_err(|refusal| BookFault::Book(refusal, at))
}

/// The rules of a file that has so many variables and `count` clauses, into the books, which it empties first.
// The two books are parameters of their own: of a struct that lends both, a contract can say only by place what is left in each.
fn read_rules(
    reader: &mut Reader<'_>,
    variables: u32,
    count: u32,
    clauses: &mut ClauseBook<'_>,
    groups: &mut GroupBook<'_>,
) -> Result<(), BookFault>
    ensures read { filled (fresh variables (clausebook.filling clauses.old).size (groupbook.filling groups.old).size) (rules_in count between (ahead reader.old)) ≡ told result (books clauses.new groups.new) }
    ensures sized { SameSizes clauses.old clauses.new groups.old groups.new }
{
    clauses.reset(variables);
    groups.reset(variables);
    let mut left = count;
    while let Some(start) = next_start(reader, left)? {
        match start {
            Start::Clause(first) => {
                left -= 1;
                read_clause(reader, clauses, first)?;
            }
            Start::Group(at) => read_group(reader, groups, at)?,
        }
    }
    Ok(())
}

/// The number of clauses, and the rules.
// The two books are parameters of their own here and below, for the reason given at `read_rules`.
fn read_body(
    reader: &mut Reader<'_>,
    variables: u32,
    clauses: &mut ClauseBook<'_>,
    groups: &mut GroupBook<'_>,
) -> Result<(), BookFault>
    ensures read { rest_outcome (clausebook.filling clauses.old).size (groupbook.filling groups.old).size variables (ahead reader.old) ≡ told result (books clauses.new groups.new) }
    ensures sized { SameSizes clauses.old clauses.new groups.old groups.new }
{
    let count = read_count(reader)?;
    read_rules(reader, variables, count.value, clauses, groups)
}

/// Reads a file from its number of clauses on into the books, which it empties first; the file has so many variables.
/// After a failure the books have no variable and no rule, and all their words are 0.
pub fn read_rest(
    mut reader: Reader<'_>,
    variables: u32,
    clauses: &mut ClauseBook<'_>,
    groups: &mut GroupBook<'_>,
) -> Result<(), BookFault>
    ensures outcome { told result (books clauses.new groups.new) ≡ rest_outcome (clausebook.filling clauses.old).size (groupbook.filling groups.old).size variables (ahead reader.entry) }
    ensures emptied { failed result (GivenUp clauses.old clauses.new groups.old groups.new) }
{
    let read = read_body(&mut reader, variables, clauses, groups);
    if read.is_err() {
        clauses.reset(0);
        groups.reset(0);
    }
    read
}

/// Reads a rule file into the books, which it empties first. After a failure the books have no variable and no rule,
/// and all their words are 0.
pub fn read(
    text: &[u8],
    clauses: &mut ClauseBook<'_>,
    groups: &mut GroupBook<'_>,
) -> Result<(), BookFault>
    ensures outcome { told result (books clauses.new groups.new) ≡ outcome (clausebook.filling clauses.old).size (groupbook.filling groups.old).size (seen_in text.now) }
    ensures judged { Judged result (clausebook.filling clauses.old).size (groupbook.filling groups.old).size (seen_in text.now) (books clauses.new groups.new) }
    ensures found { IfErr result (Found text.now (clausebook.filling clauses.old).size (groupbook.filling groups.old).size) }
    ensures emptied { failed result (GivenUp clauses.old clauses.new groups.old groups.new) }
{
    clauses.reset(0);
    groups.reset(0);
    let mut reader = Reader::new(text);
    let variables = read_variables(&mut reader)?;
    read_rest(reader, variables.value, clauses, groups)
}
